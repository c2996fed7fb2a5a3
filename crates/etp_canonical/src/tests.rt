ghost use Rattle.std.specs.Prelude.{All, IsSome, IsTrue};
ghost use Rattle.etp_theory.specs.LawNumbers.{law_numbered};

use crate::{ClaimRefusal, judge};
use etp_laws::Laws;
use etp_rules::{Rule, RuleList, RuleSystem};
use etp_term::{NoMemory, Term};
use sqlite_items::Boxed;
use std::alloc::Global;

fn op(alloc: Global, left: Term, right: Term) -> Result<Term, NoMemory> {
    Ok(Term::Op(Boxed::new(alloc, left)?, Boxed::new(alloc, right)?))
}

/// The rule `(x * y) * z -> x * (y * z)`.
fn reassociation(alloc: Global) -> Result<RuleList, NoMemory> {
    let left = op(alloc, op(alloc, Term::Var(0), Term::Var(1))?, Term::Var(2))?;
    let right = op(alloc, Term::Var(0), op(alloc, Term::Var(1), Term::Var(2))?)?;
    let mut rules = RuleList::empty(alloc);
    rules.push(Rule { left, right })?;
    Ok(rules)
}

fn are_listed(laws: &Laws, numbers: &[u32]) -> bool
    ensures { IsTrue result → All (λ n. IsSome (law_numbered laws.now.equations n)) numbers.now }
{
    for number in numbers {
        match laws.law(*number) {
            None => return false,
            Some(_) => {}
        }
    }
    true
}

/// What is said of these claims; None where a number isn't listed.
fn judged(
    alloc: Global,
    system: &RuleSystem,
    laws: &Laws,
    holds: &[u32],
    fails: &[u32],
) -> Option<Result<(), ClaimRefusal>> {
    if are_listed(laws, holds) && are_listed(laws, fails) {
        return Some(judge(alloc, system, laws, holds, fails));
    }
    None
}

#[test]
fn claims_are_judged(rt: HostRuntime) {
    let alloc = rt.alloc();
    let laws = Laws::build(alloc).expect(&rt, "memory");
    let rules = reassociation(alloc).expect(&rt, "memory");
    assert!(rt; rules.len() == 1);
    assert!(rt; rules.has_small_variables());
    let Ok(system) = RuleSystem::of([2, 1, 1], rules) else {
        assert!(rt; false);
        return;
    };
    assert!(rt;
        matches!(
            &judged(alloc, &system, &laws, &[4512], &[3, 43]),
            Some(Ok(()))
        )
    );
    assert!(rt;
        matches!(
            &judged(alloc, &system, &laws, &[4512], &[3, 4512, 43]),
            Some(Err(ClaimRefusal::FailsHolds { law: 4512, .. }))
        )
    );
}
