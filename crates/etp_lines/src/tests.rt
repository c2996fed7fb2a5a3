// Lines that are read one by one.
use crate::{lemma_line, step_line};

#[test]
fn lines_of_a_lemma_and_of_a_step_are_read(rt: HostRuntime) {
    let start = lemma_line(rt.alloc(), b"lemma x * y").expect(&rt, "memory");
    let step = step_line(rt.alloc(), b"step 7 < rl x").expect(&rt, "memory");
    let cited = step_line(rt.alloc(), b"step c7 < rl x").expect(&rt, "memory");
    assert!(rt; start.is_some());
    assert!(rt; cited.is_none());
    match step {
        Some(step) => assert!(rt; step.line == 7 && step.reversed && step.position.len() == 2),
        None => assert!(rt; false),
    }
}
