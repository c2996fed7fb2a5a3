use crate::judging::listed;
use crate::{OpTable, Point, TableRefusal, Verdict};
use etp_laws::Laws;
use etp_term::Term;
use sqlite_items::Boxed;
use std::alloc::Global;

fn left_projection(alloc: Global) -> Result<OpTable, TableRefusal> {
    OpTable::of(alloc, 2, &[0, 0, 1, 1])
}

/// The table of size 65 with all entries 0.
fn constant(alloc: Global) -> Result<OpTable, TableRefusal> {
    let entries = vec![in alloc; 0u32; 4225]?;
    OpTable::of(alloc, 65, entries.as_slice())
}

/// The first failing assignment of law n, where there is such a law.
fn failure(table: &OpTable, laws: &Laws, n: u32) -> Option<Verdict> {
    if laws.law(n).is_none() {
        return None;
    }
    Some(table.first_failure(listed(laws, n)))
}

/// What is said of one law that is to hold and one that is to fail, where there are such laws.
fn judged(
    table: &OpTable,
    laws: &Laws,
    holds: u32,
    fails: u32,
) -> Option<Result<(), TableRefusal>> {
    if laws.law(holds).is_none() {
        return None;
    }
    if laws.law(fails).is_none() {
        return None;
    }
    Some(table.judge(laws, &[holds], &[fails]))
}

/// Whether the point is this one of two variables.
fn is_pair(point: &Point, x: u8, y: u8) -> bool {
    point.variables == 2 && point.values[0] == x && point.values[1] == y
}

#[test]
fn a_table_is_read_row_by_row(rt: HostRuntime) {
    let table = left_projection(rt.alloc()).expect(&rt, "a table");
    assert_eq!(rt; table.size(), 2);
    if table.size() == 2 {
        assert_eq!(rt; table.value(0, 1), 0);
        assert_eq!(rt; table.value(1, 0), 1);
    }
}

#[test]
fn the_first_entry_out_of_range_is_refused(rt: HostRuntime) {
    let refused = OpTable::of(rt.alloc(), 2, &[0, 2, 3, 1]);
    assert!(rt;
        matches!(
            refused,
            Err(TableRefusal::Entry {
                row: 0,
                column: 1,
                value: 2
            })
        )
    );
}

#[test]
fn a_term_has_its_value_at_a_point(rt: HostRuntime) {
    let alloc = rt.alloc();
    let table = OpTable::of(alloc, 3, &[0, 2, 1, 2, 1, 0, 1, 0, 2]).expect(&rt, "a table");
    let x = Boxed::new(alloc, Term::Var(0)).expect(&rt, "memory");
    let y = Boxed::new(alloc, Term::Var(1)).expect(&rt, "memory");
    let point = Point {
        values: [1, 2, 0, 0, 0, 0, 0, 0],
        variables: 2,
    };
    if table.size() == 3 {
        assert_eq!(rt; table.eval(&Term::Op(x, y), &point), 0);
    }
}

#[test]
fn left_projection_has_law_4_and_no_commutativity(rt: HostRuntime) {
    let alloc = rt.alloc();
    let laws = Laws::build(alloc).expect(&rt, "memory");
    let table = left_projection(alloc).expect(&rt, "a table");
    assert!(rt;
        matches!(
            failure(&table, &laws, 4),
            Some(Verdict::Holds { looked_at: 4 })
        )
    );
    assert!(rt;
        matches!(
            failure(&table, &laws, 3),
            Some(Verdict::Holds { looked_at: 2 })
        )
    );
    for n in [5, 43] {
        match failure(&table, &laws, n) {
            Some(
                Verdict::Fails {
                    point,
                    left: 0,
                    right: 1,
                },
            ) => assert!(rt; is_pair(&point, 0, 1)),
            _ => assert!(rt; false),
        }
    }
}

#[test]
fn left_projection_is_judged(rt: HostRuntime) {
    let alloc = rt.alloc();
    let laws = Laws::build(alloc).expect(&rt, "memory");
    let table = left_projection(alloc).expect(&rt, "a table");
    assert!(rt; matches!(judged(&table, &laws, 4, 43), Some(Ok(()))));
    match judged(&table, &laws, 5, 43) {
        Some(
            Err(
                TableRefusal::HoldsFails {
                    law: 5,
                    point,
                    left: 0,
                    right: 1,
                },
            ),
        ) => assert!(rt; is_pair(&point, 0, 1)),
        _ => assert!(rt; false),
    }
    let held = judged(&table, &laws, 4, 3);
    assert!(rt;
        matches!(
            held,
            Some(Err(TableRefusal::FailsHolds {
                law: 3,
                looked_at: 2
            }))
        )
    );
}

#[test]
fn a_table_of_size_65_has_too_many_assignments(rt: HostRuntime) {
    let alloc = rt.alloc();
    let laws = Laws::build(alloc).expect(&rt, "memory");
    let table = constant(alloc).expect(&rt, "a table");
    match judged(&table, &laws, 46, 3) {
        Some(
            Err(
                TableRefusal::TooManyAssignments {
                    law: 46,
                    size: 65,
                    variables: 4,
                },
            ),
        ) => {}
        _ => assert!(rt; false),
    }
    match judged(&table, &laws, 43, 46) {
        Some(
            Err(
                TableRefusal::FailsHolds {
                    law: 46,
                    looked_at: 16777216,
                },
            ),
        ) => {}
        _ => assert!(rt; false),
    }
}
