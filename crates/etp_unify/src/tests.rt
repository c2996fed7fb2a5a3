use crate::{Unified, unify};
use etp_term::{NoMemory, Term};
use sqlite_items::Boxed;
use std::alloc::Global;

fn op(alloc: Global, left: Term, right: Term) -> Result<Term, NoMemory> {
    Ok(Term::Op(Boxed::new(alloc, left)?, Boxed::new(alloc, right)?))
}

#[test]
fn a_variable_inside_its_own_value_has_none(rt: HostRuntime) {
    let alloc = rt.alloc();
    let square = op(alloc, Term::Var(0), Term::Var(0)).expect(&rt, "memory");
    let inner = op(alloc, Term::Var(1), Term::Var(2)).expect(&rt, "memory");
    let term = op(alloc, Term::Var(1), inner).expect(&rt, "memory");
    let unified = unify(alloc, &square, &term).expect(&rt, "memory");
    assert!(rt; matches!(&unified, Unified::Never));
}

#[test]
fn a_unifier_makes_both_equal(rt: HostRuntime) {
    let alloc = rt.alloc();
    let product = op(alloc, Term::Var(0), Term::Var(1)).expect(&rt, "memory");
    let square = op(alloc, Term::Var(2), Term::Var(2)).expect(&rt, "memory");
    let term = op(alloc, Term::Var(2), square).expect(&rt, "memory");
    match unify(alloc, &product, &term).expect(&rt, "memory") {
        Unified::Never => assert!(rt; false),
        Unified::Most(subst) => {
            let left = subst.apply(alloc, &product).expect(&rt, "memory");
            let right = subst.apply(alloc, &term).expect(&rt, "memory");
            assert!(rt; left.same_term(&right));
            let value = subst.get(1).expect(&rt, "a value");
            assert!(rt; matches!(value, Term::Op(_, _)));
        }
    }
}

/// A comb to the right, with the variable at each of its leaves.
fn comb(alloc: Global, leaves: u32, variable: u8) -> Result<Term, NoMemory> {
    let mut term = Term::Var(variable);
    for _ in 1..leaves {
        term = op(alloc, Term::Var(variable), term)?;
    }
    Ok(term)
}

#[test]
fn deep_terms_are_unified(rt: HostRuntime) {
    let alloc = rt.alloc();
    let of_x = comb(alloc, 255, 0).expect(&rt, "memory");
    let of_y = comb(alloc, 255, 1).expect(&rt, "memory");
    let shorter = comb(alloc, 254, 1).expect(&rt, "memory");
    let unified = unify(alloc, &of_x, &of_y).expect(&rt, "memory");
    assert!(rt; matches!(&unified, Unified::Most(_)));
    let unified = unify(alloc, &of_x, &shorter).expect(&rt, "memory");
    assert!(rt; matches!(&unified, Unified::Never));
}

/// Two combs that make each variable the operation of the one before it with itself.
fn doubled(alloc: Global, variables: u8) -> Result<(Term, Term), NoMemory> {
    let mut left = Term::Var(0);
    let mut right = Term::Var(0);
    for v in 1..variables {
        let square = op(alloc, Term::Var(v - 1), Term::Var(v - 1))?;
        left = op(alloc, Term::Var(v), left)?;
        right = op(alloc, square, right)?;
    }
    Ok((left, right))
}

#[test]
fn values_of_too_many_leaves_are_not_built(rt: HostRuntime) {
    let alloc = rt.alloc();
    let (left, right) = doubled(alloc, 4).expect(&rt, "memory");
    match unify(alloc, &left, &right).expect(&rt, "memory") {
        Unified::Never => assert!(rt; false),
        Unified::Most(subst) => {
            let value = subst.get(3).expect(&rt, "a value");
            assert_eq!(rt; value.leaves(), 8);
        }
    }
    let (left, right) = doubled(alloc, 100).expect(&rt, "memory");
    assert!(rt; unify(alloc, &left, &right).is_err());
}
