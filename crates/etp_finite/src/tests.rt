// The worked table of a finite session, by the ledger's own calls.
use crate::{FiniteBody, FiniteLedger, FiniteRefusal};
use etp_closure::Answer;
use etp_finite_body::{FiniteLemma, FiniteLemmas, FiniteProof};
use etp_laws::Laws;
use etp_proof::Label;
use etp_term::{NoMemory, Term};
use sqlite_items::Boxed;
use std::alloc::Global;

fn op(alloc: Global, left: u8, right: u8) -> Result<Term, NoMemory> {
    let left = Boxed::new(alloc, Term::Var(left))?;
    let right = Boxed::new(alloc, Term::Var(right))?;
    Ok(Term::Op(left, right))
}

// Law 29 is x = (y ◇ x) ◇ y, and law 14 is x = y ◇ (x ◇ y).
fn cancelling(alloc: Global, first: u8, second: u8) -> Result<FiniteProof, NoMemory> {
    let mut lemmas = FiniteLemmas::empty(alloc);
    lemmas.push(FiniteLemma::Cancel {
        line: 0,
        variable: 0,
        outer: op(alloc, 0, 1)?,
        inner: op(alloc, first, second)?,
    })?;
    Ok(FiniteProof {
        hypothesis: 29,
        goal: 14,
        lemmas,
    })
}

fn named(alloc: Global, name: &str) -> Option<Label> {
    match Label::of(alloc, name.as_bytes()) {
        Ok(label) => label,
        Err(_) => None,
    }
}

/// What the ledger answers where its conditions hold.
fn accepted(
    ledger: &mut FiniteLedger,
    laws: &Laws,
    name: Label,
    proof: FiniteProof,
) -> Option<Result<(), FiniteRefusal>> {
    if laws.order() != 4 || ledger.count() == u32::MAX {
        return None;
    }
    if laws.law(proof.hypothesis).is_none() {
        return None;
    }
    if laws.law(proof.goal).is_none() {
        return None;
    }
    if proof.lemmas.len() == 0 {
        return None;
    }
    Some(ledger.accept(laws, name, FiniteBody::Proof(proof)))
}

fn says(ledger: &FiniteLedger, e: u32, f: u32, expected: Answer) -> bool {
    match ledger.ask(e, f) {
        Ok(answer) => answer == expected,
        Err(_) => false,
    }
}

#[test]
fn a_cancelled_law_is_implied_with_its_dual(rt: HostRuntime) {
    let alloc = rt.alloc();
    let laws = Laws::build(alloc).expect(&rt, "memory");
    let mut ledger = FiniteLedger::start(alloc, &laws).expect(&rt, "memory");
    let name = named(alloc, "c").expect(&rt, "a name");
    let body = cancelling(alloc, 1, 0).expect(&rt, "memory");
    assert!(rt; matches!(accepted(&mut ledger, &laws, name, body), Some(Ok(()))));
    assert!(rt; says(&ledger, 29, 14, Answer::Implied));
    assert!(rt; says(&ledger, 14, 29, Answer::Implied));
    assert!(rt; ledger.count() == 1);
    assert!(rt; ledger.withdraw(b"c").is_ok());
    assert!(rt; says(&ledger, 29, 14, Answer::Unsettled));
}

#[test]
fn another_equation_is_refused(rt: HostRuntime) {
    let alloc = rt.alloc();
    let laws = Laws::build(alloc).expect(&rt, "memory");
    let mut ledger = FiniteLedger::start(alloc, &laws).expect(&rt, "memory");
    let name = named(alloc, "d").expect(&rt, "a name");
    let body = cancelling(alloc, 0, 1).expect(&rt, "memory");
    match accepted(&mut ledger, &laws, name, body) {
        Some(Err(FiniteRefusal::CancelDiffers { lemma })) => assert!(rt; lemma == 1),
        _ => assert!(rt; false),
    }
}
