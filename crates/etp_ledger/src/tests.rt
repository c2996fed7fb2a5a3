use crate::{Ledger, LedgerRefusal, Name};
use etp_check::CheckRefusal;
use etp_closure::Answer;
use etp_items::Body;
use etp_laws::Laws;
use etp_proof::{Cites, Lemma, Lemmas, Proof, Step, Steps};
use etp_replay::ReplayRefusal;
use etp_term::{NoMemory, Position, Side, Term};
use sqlite_items::Boxed;
use std::alloc::Global;
use std::rt::HostRuntime;

fn product(alloc: Global, left: Term, right: Term) -> Result<Term, NoMemory> {
    Ok(Term::Op(Boxed::new(alloc, left)?, Boxed::new(alloc, right)?))
}

/// x ◇ x
fn square(alloc: Global) -> Result<Term, NoMemory> {
    product(alloc, Term::Var(0), Term::Var(0))
}

/// A step from left to right, by a line or by a cite.
fn step(line: u32, cited: bool, position: Position, to: Term) -> Step {
    Step {
        to,
        line,
        cited,
        reversed: false,
        position,
    }
}

/// A proof whose only lemma starts with x.
fn proof(
    alloc: Global,
    hypothesis: u32,
    goal: u32,
    cites: Cites,
    steps: Steps,
) -> Result<Proof, NoMemory> {
    let mut lemmas = Lemmas::empty(alloc);
    lemmas.push(Lemma {
        start: Term::Var(0),
        steps,
    })?;
    Ok(Proof {
        hypothesis,
        goal,
        cites,
        lemmas,
    })
}

/// From x ◇ y = x to x = x ◇ x, in one step.
fn idempotence(alloc: Global) -> Result<Proof, NoMemory> {
    let mut steps = Steps::empty(alloc);
    steps.push(step(0, false, Position::root(alloc), square(alloc)?))?;
    proof(alloc, 4, 3, Cites::empty(alloc), steps)
}

/// The list of one name.
fn cite(alloc: Global, name: &[u8]) -> Option<Cites> {
    let mut cites = Cites::empty(alloc);
    cites.push(Name::of(alloc, name).ok()??).ok()?;
    Some(cites)
}

/// From x ◇ y = x to x = x ◇ (x ◇ x), by two steps of a cited file.
fn cube(alloc: Global, cited: &[u8]) -> Option<Proof> {
    let mut right = Position::root(alloc);
    right.push(Side::R).ok()?;
    let to = product(alloc, Term::Var(0), square(alloc).ok()?).ok()?;
    let mut steps = Steps::empty(alloc);
    steps
        .push(step(1, true, Position::root(alloc), square(alloc).ok()?))
        .ok()?;
    steps.push(step(1, true, right, to)).ok()?;
    proof(alloc, 4, 8, cite(alloc, cited)?, steps).ok()
}

/// A proof to x = x ◇ x that cites a file and uses the cite of a number.
fn citing(alloc: Global, hypothesis: u32, cited: &[u8], number: u32) -> Option<Proof> {
    let mut steps = Steps::empty(alloc);
    steps
        .push(step(number, true, Position::root(alloc), square(alloc).ok()?))
        .ok()?;
    proof(alloc, hypothesis, 3, cite(alloc, cited)?, steps).ok()
}

/// What a call of the ledger answers.
#[derive(Clone, Copy, Debug, PartialEq, Eq)]
enum Outcome {
    Done,
    Taken,
    Missing(u32),
    Other(u32),
    Citation(u32),
    Cited(u32),
    Unknown,
    Else,
}

fn told(answer: Result<(), LedgerRefusal>) -> Outcome {
    match answer {
        Ok(()) => Outcome::Done,
        Err(LedgerRefusal::NameTaken) => Outcome::Taken,
        Err(LedgerRefusal::CiteMissing { cite }) => Outcome::Missing(cite),
        Err(LedgerRefusal::CiteOther { cite }) => Outcome::Other(cite),
        Err(LedgerRefusal::Cited { by }) => Outcome::Cited(by),
        Err(LedgerRefusal::NoSuchName) => Outcome::Unknown,
        Err(LedgerRefusal::Check(refusal)) => offence(refusal),
        Err(_) => Outcome::Else,
    }
}

fn offence(refusal: CheckRefusal) -> Outcome {
    match refusal {
        CheckRefusal::Replay(ReplayRefusal::Citation { cite, .. }) => Outcome::Citation(cite),
        _ => Outcome::Else,
    }
}

/// What the ledger answers where its conditions hold.
fn accept(ledger: &mut Ledger, laws: &Laws, name: Name, proof: Proof) -> Outcome {
    if laws.count() != ledger.closure().size() || ledger.count() == u32::MAX {
        return Outcome::Else;
    }
    if laws.law(proof.hypothesis).is_none() || laws.law(proof.goal).is_none() {
        return Outcome::Else;
    }
    if proof.lemmas.len() == 0 {
        return Outcome::Else;
    }
    told(ledger.accept(laws, name, Body::Proof(proof)))
}

fn take(ledger: &mut Ledger, laws: &Laws, name: Option<Name>, proof: Option<Proof>) -> Outcome {
    match (name, proof) {
        (Some(name), Some(proof)) => accept(ledger, laws, name, proof),
        _ => Outcome::Else,
    }
}

fn named(alloc: Global, bytes: &[u8]) -> Option<Name> {
    Name::of(alloc, bytes).ok()?
}

/// The answer for two listed laws.
fn ask(ledger: &Ledger, e: u32, f: u32) -> Option<Answer> {
    match ledger.ask(e, f) {
        Ok(answer) => Some(answer),
        Err(_) => None,
    }
}

#[test]
fn a_proof_and_its_dual_are_answered(rt: HostRuntime) {
    let alloc = rt.alloc();
    let laws = Laws::build(alloc).expect(&rt, "memory");
    let mut ledger = Ledger::start(alloc, &laws).expect(&rt, "memory");
    let first = take(
        &mut ledger,
        &laws,
        named(alloc, b"p1"),
        idempotence(alloc).ok(),
    );
    assert_eq!(rt; first, Outcome::Done);
    assert!(rt; matches!(ask(&ledger, 4, 3), Some(Answer::Implied)));
    assert!(rt; matches!(ask(&ledger, 5, 3), Some(Answer::Implied)));
    assert!(rt; matches!(ask(&ledger, 3, 4), Some(Answer::Unsettled)));
    let again = take(
        &mut ledger,
        &laws,
        named(alloc, b"p1"),
        idempotence(alloc).ok(),
    );
    assert_eq!(rt; again, Outcome::Taken);
}

#[test]
fn a_cited_file_stays(rt: HostRuntime) {
    let alloc = rt.alloc();
    let laws = Laws::build(alloc).expect(&rt, "memory");
    let mut ledger = Ledger::start(alloc, &laws).expect(&rt, "memory");
    let first = take(
        &mut ledger,
        &laws,
        named(alloc, b"a"),
        idempotence(alloc).ok(),
    );
    let second = take(&mut ledger, &laws, named(alloc, b"b"), cube(alloc, b"a"));
    assert_eq!(rt; first, Outcome::Done);
    assert_eq!(rt; second, Outcome::Done);
    assert_eq!(rt; told(ledger.withdraw(b"a")), Outcome::Cited(1));
    assert_eq!(rt; told(ledger.withdraw(b"b")), Outcome::Done);
    assert!(rt; matches!(ask(&ledger, 4, 8), Some(Answer::Unsettled)));
    assert!(rt; matches!(ask(&ledger, 4, 3), Some(Answer::Implied)));
}

#[test]
fn wrong_cites_are_refused(rt: HostRuntime) {
    let alloc = rt.alloc();
    let laws = Laws::build(alloc).expect(&rt, "memory");
    let mut ledger = Ledger::start(alloc, &laws).expect(&rt, "memory");
    take(
        &mut ledger,
        &laws,
        named(alloc, b"a"),
        idempotence(alloc).ok(),
    );
    let other = take(
        &mut ledger,
        &laws,
        named(alloc, b"d"),
        citing(alloc, 5, b"a", 1),
    );
    assert_eq!(rt; other, Outcome::Other(1));
    let missing = take(
        &mut ledger,
        &laws,
        named(alloc, b"d"),
        citing(alloc, 4, b"zz", 1),
    );
    assert_eq!(rt; missing, Outcome::Missing(1));
    let short = take(
        &mut ledger,
        &laws,
        named(alloc, b"d"),
        citing(alloc, 4, b"a", 2),
    );
    assert_eq!(rt; short, Outcome::Citation(2));
}
