use crate::run_in_memory;
use etp_io::SureShelf;

#[test]
fn a_session_in_memory_ends_well(rt: HostRuntime) {
    let bytes = Vec::from_slice(rt.alloc(), b"law 1\n").expect(&rt, "memory");
    let mut shelf = SureShelf::of(rt.alloc());
    assert!(rt; run_in_memory(rt.alloc(), &[], bytes, &mut shelf) == 0);
}
