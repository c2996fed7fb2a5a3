use crate::{Searched, Space, Terms, neighbours, shortest};
use etp_laws::Laws;
use etp_proof::{Lemma, Proof, Step};
use etp_term::{Law, NoMemory, Side, Term};
use sqlite_items::Boxed;
use std::alloc::Global;

fn op(alloc: Global, left: Term, right: Term) -> Result<Term, NoMemory> {
    Ok(Term::Op(Boxed::new(alloc, left)?, Boxed::new(alloc, right)?))
}

fn product(alloc: Global, left: u8, right: u8) -> Result<Term, NoMemory> {
    op(alloc, Term::Var(left), Term::Var(right))
}

/// The law x = x ◇ y.
fn left_projection(alloc: Global) -> Result<Law, NoMemory> {
    Ok(Law {
        left: Term::Var(0),
        right: product(alloc, 0, 1)?,
    })
}

/// The neighbours of a term; None where the space can't be searched or hasn't the term.
fn found(alloc: Global, space: Space, term: &Term) -> Option<Result<Terms, NoMemory>> {
    if !space.is_searchable() {
        return None;
    }
    if !space.has(term) {
        return None;
    }
    Some(neighbours(alloc, space, term))
}

fn has(terms: &Terms, term: &Term) -> bool {
    for at in 0..terms.len() {
        if let Some(other) = terms.get(at) {
            if other.same_term(term) {
                return true;
            }
        }
    }
    false
}

#[test]
fn two_steps_lead_from_three_variables(rt: HostRuntime) {
    let alloc = rt.alloc();
    let law = left_projection(alloc).expect(&rt, "memory");
    let space = Space {
        law: &law,
        variables: 3,
        leaves: 3,
    };
    let inner = product(alloc, 1, 2).expect(&rt, "memory");
    let start = op(alloc, Term::Var(0), inner).expect(&rt, "memory");
    let terms = found(alloc, space, &start)
        .expect(&rt, "a search term")
        .expect(&rt, "memory");
    assert_eq!(rt; terms.len(), 2);
    assert!(rt; has(&terms, &Term::Var(0)));
    let shorter = product(alloc, 0, 1).expect(&rt, "memory");
    assert!(rt; has(&terms, &shorter));
}

#[test]
fn x_is_y_leads_anywhere(rt: HostRuntime) {
    let alloc = rt.alloc();
    let law = Law {
        left: Term::Var(0),
        right: Term::Var(1),
    };
    let space = Space {
        law: &law,
        variables: 2,
        leaves: 3,
    };
    let terms = found(alloc, space, &Term::Var(0))
        .expect(&rt, "a search term")
        .expect(&rt, "memory");
    assert_eq!(rt; terms.len(), 22);
}

#[test]
fn a_term_is_there_once(rt: HostRuntime) {
    let alloc = rt.alloc();
    let mut terms = Terms::empty(alloc);
    terms.add(alloc, Term::Var(5)).expect(&rt, "memory");
    terms.add(alloc, Term::Var(4)).expect(&rt, "memory");
    terms.add(alloc, Term::Var(5)).expect(&rt, "memory");
    assert_eq!(rt; terms.len(), 2);
    assert!(rt; has(&terms, &Term::Var(4)));
}

/// The question for a shortest proof between listed laws, with its bounds.
#[derive(Clone, Copy)]
struct Question {
    hypothesis: u32,
    goal: u32,
    leaves: u8,
    steps: u8,
}

/// What is answered where the conditions hold.
fn searched(alloc: Global, laws: &Laws, asked: Question) -> Option<Result<Searched, NoMemory>> {
    if laws.order() != 4 {
        return None;
    }
    if laws.law(asked.hypothesis).is_none() {
        return None;
    }
    if laws.law(asked.goal).is_none() {
        return None;
    }
    if asked.leaves < 1 || asked.leaves > 6 {
        return None;
    }
    if asked.steps > 12 {
        return None;
    }
    let answer = shortest(
        alloc,
        laws,
        asked.hypothesis,
        asked.goal,
        asked.leaves,
        asked.steps,
    );
    Some(answer)
}

/// The proof that is found.
fn proof_found(alloc: Global, laws: &Laws, asked: Question) -> Option<Proof> {
    match searched(alloc, laws, asked) {
        Some(Ok(Searched::Found(proof))) => Some(proof),
        _ => None,
    }
}

/// Whether the lemma has the step at a place, which is at the root or in the right part.
fn has_step(lemma: &Lemma, at: u32, to: &Term, reversed: bool, in_right: bool) -> bool {
    match lemma.steps.get(at) {
        Some(step) => {
            step.to.same_term(to) && step.reversed == reversed && is_in_right(step) == in_right
        }
        None => false,
    }
}

fn is_in_right(step: &Step) -> bool {
    matches!(step.position.get(0), Some(Side::R)) && step.position.len() == 1
}

#[test]
fn law_4_gives_law_3_by_one_step(rt: HostRuntime) {
    let alloc = rt.alloc();
    let laws = Laws::build(alloc).expect(&rt, "memory");
    let asked = Question {
        hypothesis: 4,
        goal: 3,
        leaves: 2,
        steps: 3,
    };
    let proof = proof_found(alloc, &laws, asked).expect(&rt, "a proof");
    let lemma = proof.lemmas.get(0).expect(&rt, "a lemma");
    assert_eq!(rt; lemma.steps.len(), 1);
    let square = product(alloc, 0, 0).expect(&rt, "memory");
    assert!(rt; has_step(lemma, 0, &square, false, false));
}

#[test]
fn law_4_gives_law_4512_by_two_steps(rt: HostRuntime) {
    let alloc = rt.alloc();
    let laws = Laws::build(alloc).expect(&rt, "memory");
    let asked = Question {
        hypothesis: 4,
        goal: 4512,
        leaves: 3,
        steps: 2,
    };
    let proof = proof_found(alloc, &laws, asked).expect(&rt, "a proof");
    let lemma = proof.lemmas.get(0).expect(&rt, "a lemma");
    assert_eq!(rt; lemma.steps.len(), 2);
    let shorter = product(alloc, 0, 1).expect(&rt, "memory");
    assert!(rt; has_step(lemma, 0, &shorter, true, true));
    let left = product(alloc, 0, 1).expect(&rt, "memory");
    let end = op(alloc, left, Term::Var(2)).expect(&rt, "memory");
    assert!(rt; has_step(lemma, 1, &end, false, false));
}

#[test]
fn one_step_is_too_few(rt: HostRuntime) {
    let alloc = rt.alloc();
    let laws = Laws::build(alloc).expect(&rt, "memory");
    let asked = Question {
        hypothesis: 4,
        goal: 4512,
        leaves: 3,
        steps: 1,
    };
    assert!(rt; matches!(searched(alloc, &laws, asked), Some(Ok(Searched::Nothing))));
}

#[test]
fn law_4_does_not_give_law_43(rt: HostRuntime) {
    let alloc = rt.alloc();
    let laws = Laws::build(alloc).expect(&rt, "memory");
    let asked = Question {
        hypothesis: 4,
        goal: 43,
        leaves: 6,
        steps: 12,
    };
    assert!(rt; matches!(searched(alloc, &laws, asked), Some(Ok(Searched::Nothing))));
}

#[test]
fn law_1_gives_itself_without_steps(rt: HostRuntime) {
    let alloc = rt.alloc();
    let laws = Laws::build(alloc).expect(&rt, "memory");
    let asked = Question {
        hypothesis: 1,
        goal: 1,
        leaves: 1,
        steps: 0,
    };
    let proof = proof_found(alloc, &laws, asked).expect(&rt, "a proof");
    let lemma = proof.lemmas.get(0).expect(&rt, "a lemma");
    assert_eq!(rt; lemma.steps.len(), 0);
}

#[test]
fn six_variables_are_too_many_at_three_steps(rt: HostRuntime) {
    let alloc = rt.alloc();
    let laws = Laws::build(alloc).expect(&rt, "memory");
    let asked = Question {
        hypothesis: 4,
        goal: 4694,
        leaves: 6,
        steps: 12,
    };
    let answer = searched(alloc, &laws, asked);
    assert!(rt; matches!(answer, Some(Ok(Searched::Budget { level: 3 }))));
}
