use crate::{Bindings, Matched, Subst, match_onto, replace_at};
use etp_term::{NoMemory, Position, Side, Term};
use sqlite_items::Boxed;
use std::alloc::Global;

fn op(alloc: Global, left: Term, right: Term) -> Result<Term, NoMemory> {
    Ok(Term::Op(Boxed::new(alloc, left)?, Boxed::new(alloc, right)?))
}

#[test]
fn a_repeated_variable_has_one_value(rt: HostRuntime) {
    let alloc = rt.alloc();
    let square = op(alloc, Term::Var(0), Term::Var(0)).expect(&rt, "memory");
    let product = op(alloc, Term::Var(1), Term::Var(2)).expect(&rt, "memory");
    let mut subst = Subst::empty(alloc).expect(&rt, "memory");
    let matched = match_onto(alloc, &square, &product, &mut subst).expect(&rt, "memory");
    match matched {
        Matched::Yes => assert!(rt; false),
        Matched::No { position } => {
            assert_eq!(rt; position.len(), 1);
            assert!(rt; matches!(position.get(0), Some(Side::R)));
        }
    }
    assert!(rt; subst.get(0).is_none());
}

#[test]
fn a_match_is_applied(rt: HostRuntime) {
    let alloc = rt.alloc();
    let pattern = op(alloc, Term::Var(0), Term::Var(1)).expect(&rt, "memory");
    let square = op(alloc, Term::Var(5), Term::Var(5)).expect(&rt, "memory");
    let term = op(alloc, square, Term::Var(0)).expect(&rt, "memory");
    let mut subst = Subst::empty(alloc).expect(&rt, "memory");
    let matched = match_onto(alloc, &pattern, &term, &mut subst).expect(&rt, "memory");
    assert!(rt; matches!(&matched, Matched::Yes));
    let applied = subst.apply(alloc, &pattern).expect(&rt, "memory");
    assert!(rt; applied.same_term(&term));
}

#[test]
fn both_sides_are_matched_with_one_map(rt: HostRuntime) {
    let alloc = rt.alloc();
    let product = op(alloc, Term::Var(0), Term::Var(1)).expect(&rt, "memory");
    let turned = op(alloc, Term::Var(1), Term::Var(0)).expect(&rt, "memory");
    let term = op(alloc, Term::Var(7), Term::Var(255)).expect(&rt, "memory");
    let other = op(alloc, Term::Var(255), Term::Var(7)).expect(&rt, "memory");
    let mut bindings = Bindings::empty(alloc).expect(&rt, "memory");
    assert!(rt; bindings.matches(&product, &term));
    assert!(rt; !bindings.matches(&turned, &term));
    assert!(rt; bindings.matches(&turned, &other));
    let value = bindings.get(1).expect(&rt, "a value");
    assert!(rt; value.same_term(&Term::Var(255)));
    bindings.clear();
    assert!(rt; bindings.get(1).is_none());
    assert!(rt; bindings.matches(&turned, &term));
}

#[test]
fn a_bound_variable_has_its_value(rt: HostRuntime) {
    let alloc = rt.alloc();
    let mut subst = Subst::empty(alloc).expect(&rt, "memory");
    match_onto(alloc, &Term::Var(3), &Term::Var(7), &mut subst).expect(&rt, "memory");
    let value = subst.get(3).expect(&rt, "a value");
    assert!(rt; value.same_term(&Term::Var(7)));
}

#[test]
fn a_single_value_is_given(rt: HostRuntime) {
    let alloc = rt.alloc();
    let mut subst = Subst::empty(alloc).expect(&rt, "memory");
    subst.bind(3, Term::Var(7)).expect(&rt, "memory");
    let value = subst.get(3).expect(&rt, "a value");
    assert!(rt; value.same_term(&Term::Var(7)));
}

#[test]
fn a_subterm_is_replaced(rt: HostRuntime) {
    let alloc = rt.alloc();
    let product = op(alloc, Term::Var(0), Term::Var(1)).expect(&rt, "memory");
    let expected = op(alloc, Term::Var(0), Term::Var(2)).expect(&rt, "memory");
    let mut position = Position::root(alloc);
    position.push(Side::R).expect(&rt, "memory");
    let replaced = replace_at(alloc, &product, &position, Term::Var(2)).expect(&rt, "memory");
    assert!(rt; replaced.expect(&rt, "a term").same_term(&expected));
}
