use crate::{CancelLine, FiniteLine, read_finite_line};

#[test]
fn a_line_that_cancels_is_read(rt: HostRuntime) {
    let alloc = rt.alloc();
    let said = read_finite_line(alloc, b"cancel 0 x x * y ; y * x").expect(&rt, "memory");
    assert!(rt;
        matches!(
            said,
            Some(FiniteLine::Cancel(CancelLine {
                line: 0,
                variable: 0,
                ..
            }))
        )
    );
}
