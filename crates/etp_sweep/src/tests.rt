use crate::{SweepRefusal, profile};
use etp_laws::Laws;
use etp_table::OpTable;

#[test]
fn the_profile_of_left_projection(rt: HostRuntime) {
    let alloc = rt.alloc();
    let laws = Laws::build(alloc).expect(&rt, "memory");
    let table = OpTable::of(alloc, 2, &[0, 0, 1, 1]).expect(&rt, "a table");
    let numbers = profile(alloc, &laws, &table).expect(&rt, "a profile");
    assert_eq!(rt; numbers.len(), 1214);
    let first = [1, 3, 4, 8, 9, 10, 11, 12, 23, 24, 25, 26, 27, 38, 42, 47];
    assert!(rt; numbers.as_slice().starts_with(&first));
}

#[test]
fn a_table_of_size_17_has_no_profile(rt: HostRuntime) {
    let alloc = rt.alloc();
    let laws = Laws::build(alloc).expect(&rt, "memory");
    let entries = vec![in alloc; 0u32; 289].expect(&rt, "memory");
    let table = OpTable::of(alloc, 17, entries.as_slice()).expect(&rt, "a table");
    let refused = profile(alloc, &laws, &table);
    assert!(rt; matches!(refused, Err(SweepRefusal::ProfileSize { size: 17 })));
}
