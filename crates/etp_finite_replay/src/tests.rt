// Whole proofs, by laws of the list.
use crate::{FiniteReplayRefusal, replay_finite};
use etp_finite_body::{FiniteLemma, FiniteLemmas, FiniteProof};
use etp_laws::Laws;
use etp_term::{NoMemory, Term};
use sqlite_items::Boxed;
use std::alloc::Global;

fn op(alloc: Global, left: u8, right: u8) -> Result<Term, NoMemory> {
    let left = Boxed::new(alloc, Term::Var(left))?;
    let right = Boxed::new(alloc, Term::Var(right))?;
    Ok(Term::Op(left, right))
}

// Law 29 is x = (y ◇ x) ◇ y, and law 14 is x = y ◇ (x ◇ y).
fn cancelling(alloc: Global, line: u32, first: u8, second: u8) -> Result<FiniteProof, NoMemory> {
    let mut lemmas = FiniteLemmas::empty(alloc);
    lemmas.push(FiniteLemma::Cancel {
        line,
        variable: 0,
        outer: op(alloc, 0, 1)?,
        inner: op(alloc, first, second)?,
    })?;
    Ok(FiniteProof {
        hypothesis: 29,
        goal: 14,
        lemmas,
    })
}

/// What the replay answers where its conditions hold.
fn replayed(
    alloc: Global,
    laws: &Laws,
    proof: &FiniteProof,
) -> Option<Result<(), FiniteReplayRefusal>> {
    if laws.law(proof.hypothesis).is_none() {
        return None;
    }
    if laws.law(proof.goal).is_none() {
        return None;
    }
    if proof.lemmas.len() == 0 {
        return None;
    }
    Some(replay_finite(alloc, laws, proof))
}

#[test]
fn a_line_that_cancels_proves_a_law(rt: HostRuntime) {
    let laws = Laws::build(rt.alloc()).expect(&rt, "memory");
    let right = cancelling(rt.alloc(), 0, 1, 0).expect(&rt, "memory");
    assert!(rt; matches!(replayed(rt.alloc(), &laws, &right), Some(Ok(()))));
    let differs = cancelling(rt.alloc(), 0, 0, 1).expect(&rt, "memory");
    match replayed(rt.alloc(), &laws, &differs) {
        Some(Err(FiniteReplayRefusal::CancelDiffers { lemma })) => assert!(rt; lemma == 1),
        _ => assert!(rt; false),
    }
    let itself = cancelling(rt.alloc(), 1, 1, 0).expect(&rt, "memory");
    match replayed(rt.alloc(), &laws, &itself) {
        Some(Err(FiniteReplayRefusal::Replay(_))) => {}
        _ => assert!(rt; false),
    }
}
