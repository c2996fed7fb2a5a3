use crate::{Law, NoMemory, Position, Side, Term, Word};
use sqlite_items::Boxed;
use std::alloc::Global;

fn op(alloc: Global, left: Term, right: Term) -> Result<Term, NoMemory> {
    Ok(Term::Op(Boxed::new(alloc, left)?, Boxed::new(alloc, right)?))
}

fn commutativity(alloc: Global) -> Result<Law, NoMemory> {
    Ok(Law {
        left: op(alloc, Term::Var(0), Term::Var(1))?,
        right: op(alloc, Term::Var(1), Term::Var(0))?,
    })
}

#[test]
fn the_word_of_commutativity_is_0_1_1_0(rt: HostRuntime) {
    let law = commutativity(rt.alloc()).expect(&rt, "memory");
    let word = law.word(rt.alloc()).expect(&rt, "memory");
    assert_eq!(rt; word.as_slice(), [0, 1, 1, 0].as_slice());
    assert_eq!(rt; word.len(), 4);
}

#[test]
fn copies_are_the_same(rt: HostRuntime) {
    let law = commutativity(rt.alloc()).expect(&rt, "memory");
    let copy = law.copy(rt.alloc()).expect(&rt, "memory");
    assert!(rt; law.left.same_term(&copy.left) && law.right.same_term(&copy.right));
    let left = law.left.copy(rt.alloc()).expect(&rt, "memory");
    assert!(rt; left.same_term(&law.left));
    assert!(rt; !left.same_term(&law.right));
}

#[test]
fn a_position_leads_to_its_subterm(rt: HostRuntime) {
    let law = commutativity(rt.alloc()).expect(&rt, "memory");
    let mut position = Position::root(rt.alloc());
    position.push(Side::R).expect(&rt, "memory");
    let found = law.left.at(&position).expect(&rt, "a subterm");
    assert!(rt; found.same_term(&Term::Var(1)));
    position.push(Side::L).expect(&rt, "memory");
    assert!(rt; law.left.at(&position).is_none());
}

#[test]
fn a_word_keeps_what_is_pushed(rt: HostRuntime) {
    let mut word = Word::empty(rt.alloc());
    word.push(7).expect(&rt, "memory");
    assert_eq!(rt; word.as_slice(), [7].as_slice());
}
