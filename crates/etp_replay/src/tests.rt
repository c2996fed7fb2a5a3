use crate::{
    Cites, Label, Lemma, Lemmas, Proof, ReplayRefusal, Step, StepCheck, Steps, check_step, replay,
};
use etp_laws::{Laws, Numbered};
use etp_term::{NoMemory, Position, Side, Term};
use sqlite_items::Boxed;
use std::alloc::Global;

fn op(alloc: Global, left: Term, right: Term) -> Result<Term, NoMemory> {
    Ok(Term::Op(Boxed::new(alloc, left)?, Boxed::new(alloc, right)?))
}

/// The operation of two variables.
fn product(alloc: Global, left: u8, right: u8) -> Result<Term, NoMemory> {
    op(alloc, Term::Var(left), Term::Var(right))
}

/// A step from left to right at the root, by a line.
fn step(alloc: Global, line: u32, to: Term) -> Step {
    Step {
        to,
        line,
        cited: false,
        reversed: false,
        position: Position::root(alloc),
    }
}

/// The same step at the left part.
fn step_at_left(alloc: Global, to: Term) -> Result<Step, NoMemory> {
    let mut position = Position::root(alloc);
    position.push(Side::L)?;
    Ok(Step {
        to,
        line: 0,
        cited: false,
        reversed: false,
        position,
    })
}

/// A proof of one lemma of one step.
fn one_step(
    alloc: Global,
    hypothesis: u32,
    goal: u32,
    start: Term,
    step: Step,
) -> Result<Proof, NoMemory> {
    let mut steps = Steps::empty(alloc);
    steps.push(step)?;
    one_lemma(alloc, hypothesis, goal, Lemma { start, steps })
}

fn one_lemma(alloc: Global, hypothesis: u32, goal: u32, lemma: Lemma) -> Result<Proof, NoMemory> {
    let mut lemmas = Lemmas::empty(alloc);
    lemmas.push(lemma)?;
    Ok(Proof {
        hypothesis,
        goal,
        cites: Cites::empty(alloc),
        lemmas,
    })
}

/// From x = x ◇ y two lemmas: x = x ◇ x, and x ◇ (y ◇ y) = x ◇ y by a step of the first in the
/// right part.
fn two_lemmas(alloc: Global, reversed: bool) -> Result<Proof, NoMemory> {
    let to = product(alloc, 0, 0)?;
    let mut steps = Steps::empty(alloc);
    steps.push(step(alloc, 0, to))?;
    let mut lemmas = Lemmas::empty(alloc);
    lemmas.push(Lemma {
        start: Term::Var(0),
        steps,
    })?;
    let mut position = Position::root(alloc);
    position.push(Side::R)?;
    let mut steps = Steps::empty(alloc);
    steps.push(Step {
        to: product(alloc, 0, 1)?,
        line: 1,
        cited: false,
        reversed,
        position,
    })?;
    let square = product(alloc, 1, 1)?;
    let start = op(alloc, Term::Var(0), square)?;
    lemmas.push(Lemma { start, steps })?;
    Ok(Proof {
        hypothesis: 4,
        goal: 326,
        cites: Cites::empty(alloc),
        lemmas,
    })
}

/// What replay answers where its conditions hold; no number is cited.
fn replayed(alloc: Global, laws: &Laws, proof: &Proof) -> Option<Result<(), ReplayRefusal>> {
    if laws.law(proof.hypothesis).is_none() {
        return None;
    }
    if laws.law(proof.goal).is_none() {
        return None;
    }
    if proof.lemmas.len() == 0 {
        return None;
    }
    if proof.cites.len() != 0 {
        return None;
    }
    Some(replay(alloc, laws, proof, &[]))
}

#[test]
fn a_step_by_the_left_projection_is_right(rt: HostRuntime) {
    let alloc = rt.alloc();
    let laws = Laws::build(alloc).expect(&rt, "memory");
    let law = laws.law(4).expect(&rt, "law 4");
    let step = step(alloc, 0, product(alloc, 0, 0).expect(&rt, "memory"));
    let check = check_step(alloc, &Term::Var(0), law, &step).expect(&rt, "memory");
    assert!(rt; matches!(check, StepCheck::Right));
}

#[test]
fn left_projection_implies_idempotence(rt: HostRuntime) {
    let alloc = rt.alloc();
    let laws = Laws::build(alloc).expect(&rt, "memory");
    let to = product(alloc, 0, 0).expect(&rt, "memory");
    let proof = one_step(alloc, 4, 3, Term::Var(0), step(alloc, 0, to)).expect(&rt, "memory");
    assert!(rt; matches!(replayed(alloc, &laws, &proof), Some(Ok(()))));
}

#[test]
fn law_168_implies_law_1485(rt: HostRuntime) {
    let alloc = rt.alloc();
    let laws = Laws::build(alloc).expect(&rt, "memory");
    let left = product(alloc, 1, 0).expect(&rt, "memory");
    let inner = product(alloc, 2, 1).expect(&rt, "memory");
    let right = op(alloc, Term::Var(0), inner).expect(&rt, "memory");
    let to = op(alloc, left, right).expect(&rt, "memory");
    let proof = one_step(alloc, 168, 1485, Term::Var(0), step(alloc, 0, to)).expect(&rt, "memory");
    assert!(rt; matches!(replayed(alloc, &laws, &proof), Some(Ok(()))));
}

#[test]
fn left_projection_implies_associativity(rt: HostRuntime) {
    let alloc = rt.alloc();
    let laws = Laws::build(alloc).expect(&rt, "memory");
    let inner = product(alloc, 1, 2).expect(&rt, "memory");
    let start = op(alloc, Term::Var(0), inner).expect(&rt, "memory");
    let mut steps = Steps::empty(alloc);
    let mut first = step(alloc, 0, Term::Var(0));
    first.reversed = true;
    steps.push(first).expect(&rt, "memory");
    let to = product(alloc, 0, 1).expect(&rt, "memory");
    steps.push(step(alloc, 0, to)).expect(&rt, "memory");
    let left = product(alloc, 0, 1).expect(&rt, "memory");
    let to = op(alloc, left, Term::Var(2)).expect(&rt, "memory");
    steps.push(step(alloc, 0, to)).expect(&rt, "memory");
    let proof = one_lemma(alloc, 4, 4512, Lemma { start, steps }).expect(&rt, "memory");
    assert!(rt; matches!(replayed(alloc, &laws, &proof), Some(Ok(()))));
}

#[test]
fn a_lemma_without_steps_concludes_the_first_law(rt: HostRuntime) {
    let alloc = rt.alloc();
    let laws = Laws::build(alloc).expect(&rt, "memory");
    let lemma = Lemma {
        start: Term::Var(0),
        steps: Steps::empty(alloc),
    };
    let proof = one_lemma(alloc, 4, 1, lemma).expect(&rt, "memory");
    assert!(rt; matches!(replayed(alloc, &laws, &proof), Some(Ok(()))));
}

#[test]
fn a_lemma_is_no_line_of_itself(rt: HostRuntime) {
    let alloc = rt.alloc();
    let laws = Laws::build(alloc).expect(&rt, "memory");
    let to = product(alloc, 0, 0).expect(&rt, "memory");
    let proof = one_step(alloc, 4, 3, Term::Var(0), step(alloc, 1, to)).expect(&rt, "memory");
    assert!(rt;
        matches!(
            replayed(alloc, &laws, &proof),
            Some(Err(ReplayRefusal::Reference {
                lemma: 1,
                step: 1,
                line: 1
            }))
        )
    );
}

#[test]
fn an_earlier_lemma_is_used_from_right_to_left(rt: HostRuntime) {
    let alloc = rt.alloc();
    let laws = Laws::build(alloc).expect(&rt, "memory");
    let proof = two_lemmas(alloc, true).expect(&rt, "memory");
    assert!(rt; matches!(replayed(alloc, &laws, &proof), Some(Ok(()))));
    let forwards = two_lemmas(alloc, false).expect(&rt, "memory");
    assert!(rt;
        matches!(
            replayed(alloc, &laws, &forwards),
            Some(Err(ReplayRefusal::NoMatch { lemma: 2, step: 1 }))
        )
    );
}

#[test]
fn another_goal_is_found(rt: HostRuntime) {
    let alloc = rt.alloc();
    let laws = Laws::build(alloc).expect(&rt, "memory");
    let to = product(alloc, 0, 0).expect(&rt, "memory");
    let proof = one_step(alloc, 4, 43, Term::Var(0), step(alloc, 0, to)).expect(&rt, "memory");
    assert!(rt;
        matches!(
            replayed(alloc, &laws, &proof),
            Some(Err(ReplayRefusal::GoalDiffers {
                found: Numbered::Is(3)
            }))
        )
    );
}

#[test]
fn a_variable_has_no_left_part(rt: HostRuntime) {
    let alloc = rt.alloc();
    let laws = Laws::build(alloc).expect(&rt, "memory");
    let to = product(alloc, 0, 0).expect(&rt, "memory");
    let step = step_at_left(alloc, to).expect(&rt, "memory");
    let proof = one_step(alloc, 4, 3, Term::Var(0), step).expect(&rt, "memory");
    assert!(rt;
        matches!(
            replayed(alloc, &laws, &proof),
            Some(Err(ReplayRefusal::NoPlace { lemma: 1, step: 1 }))
        )
    );
}

#[test]
fn a_step_changes_one_place_alone(rt: HostRuntime) {
    let alloc = rt.alloc();
    let laws = Laws::build(alloc).expect(&rt, "memory");
    let start = product(alloc, 0, 1).expect(&rt, "memory");
    let left = product(alloc, 0, 0).expect(&rt, "memory");
    let to = op(alloc, left, Term::Var(0)).expect(&rt, "memory");
    let step = step_at_left(alloc, to).expect(&rt, "memory");
    let proof = one_step(alloc, 4, 3, start, step).expect(&rt, "memory");
    assert!(rt;
        matches!(
            replayed(alloc, &laws, &proof),
            Some(Err(ReplayRefusal::OutsideChanged { lemma: 1, step: 1 }))
        )
    );
}

#[test]
fn left_projection_exchanges_nothing(rt: HostRuntime) {
    let alloc = rt.alloc();
    let laws = Laws::build(alloc).expect(&rt, "memory");
    let start = product(alloc, 0, 1).expect(&rt, "memory");
    let to = product(alloc, 1, 0).expect(&rt, "memory");
    let proof = one_step(alloc, 4, 43, start, step(alloc, 0, to)).expect(&rt, "memory");
    assert!(rt;
        matches!(
            replayed(alloc, &laws, &proof),
            Some(Err(ReplayRefusal::NoMatch { lemma: 1, step: 1 }))
        )
    );
}

#[test]
fn a_cite_must_be_there(rt: HostRuntime) {
    let alloc = rt.alloc();
    let laws = Laws::build(alloc).expect(&rt, "memory");
    let mut step = step(alloc, 2, product(alloc, 0, 0).expect(&rt, "memory"));
    step.cited = true;
    let proof = one_step(alloc, 4, 3, Term::Var(0), step).expect(&rt, "memory");
    assert!(rt;
        matches!(
            replayed(alloc, &laws, &proof),
            Some(Err(ReplayRefusal::Citation {
                lemma: 1,
                step: 1,
                cite: 2
            }))
        )
    );
}

#[test]
fn a_cited_law_is_used(rt: HostRuntime) {
    let alloc = rt.alloc();
    let laws = Laws::build(alloc).expect(&rt, "memory");
    let mut step = step(alloc, 1, product(alloc, 0, 0).expect(&rt, "memory"));
    step.cited = true;
    let mut proof = one_step(alloc, 4, 3, Term::Var(0), step).expect(&rt, "memory");
    let name = Label::of(alloc, b"a")
        .expect(&rt, "memory")
        .expect(&rt, "a name");
    let mut cites = Cites::empty(alloc);
    cites.push(name).expect(&rt, "memory");
    proof.cites = cites;
    assert!(rt; laws.law(4).is_some());
    assert!(rt; laws.law(3).is_some());
    assert!(rt; proof.hypothesis == 4);
    assert!(rt; proof.goal == 3);
    assert!(rt; proof.lemmas.len() > 0);
    assert!(rt; replay(alloc, &laws, &proof, &[3]).is_ok());
}
