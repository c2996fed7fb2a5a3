// Bodies of each kind checked.
ghost use Rattle.std.specs.Prelude.{◌≡◌, ◌∷◌, [], IfOk, IsTrue};
ghost use Rattle.etp_rules.specs.Rules.{rules_of};
ghost use Rattle.etp_check.specs.Checks.{HasRules};

use etp_bits::Numbers;
use etp_check::{CheckRefusal, check, system_of};
use etp_closure::Fact;
use etp_items::{Body, Claims, LinearBody, RulesBody};
use etp_laws::Laws;
use etp_linear::{LinearRefusal, Ring, Which};
use etp_proof::{Cites, Lemma, Lemmas, Proof, Step, Steps};
use etp_rules::{Rule, RuleList, RulesRefusal};
use etp_term::{NoMemory, Position, Term};
use sqlite_items::Boxed;
use std::alloc::Global;

/// The proof of the law 3 from the law 4: one step from x to x ◇ x.
fn idempotence(alloc: Global) -> Result<Proof, NoMemory> {
    let square = Term::Op(
        Boxed::new(alloc, Term::Var(0))?,
        Boxed::new(alloc, Term::Var(0))?,
    );
    let mut steps = Steps::empty(alloc);
    steps.push(Step {
        to: square,
        line: 0,
        cited: false,
        reversed: false,
        position: Position::root(alloc),
    })?;
    let mut lemmas = Lemmas::empty(alloc);
    lemmas.push(Lemma {
        start: Term::Var(0),
        steps,
    })?;
    Ok(Proof {
        hypothesis: 4,
        goal: 3,
        cites: Cites::empty(alloc),
        lemmas,
    })
}

#[test]
fn a_proof_states_its_goal(rt: HostRuntime) {
    let alloc = rt.alloc();
    let laws = Laws::build(alloc).expect(&rt, "memory");
    let proof = idempotence(alloc).expect(&rt, "memory");
    assert!(rt; laws.law(4).is_some());
    assert!(rt; laws.law(3).is_some());
    assert!(rt; proof.hypothesis == 4);
    assert!(rt; proof.goal == 3);
    assert!(rt; proof.lemmas.len() > 0);
    assert!(rt; proof.cites.len() == 0);
    let body = Body::Proof(proof);
    assert!(rt;
        matches!(
            check(alloc, &laws, &body, &[]),
            Ok(Fact::Implies {
                hypothesis: 4,
                goal: 3
            })
        )
    );
}

fn one(alloc: Global, number: u32) -> Result<Numbers, NoMemory>
    ensures { IfOk result (λ numbers. numbers ≡ number ∷ []) }
{
    let mut numbers = Numbers::empty(alloc);
    numbers.push(number)?;
    Ok(numbers)
}

// a x + 2 y modulo 3, in which law 43 is to hold and law 4512 to fail
fn checked(alloc: Global, a: i64) -> Result<Result<Fact, CheckRefusal>, NoMemory> {
    let laws = Laws::build(alloc)?;
    if laws.law(43).is_none() || laws.law(4512).is_none() {
        return Err(std::alloc::AllocError);
    }
    let body = Body::Linear(LinearBody {
        ring: Ring::Modulo(3),
        a,
        b: 2,
        c: 0,
        claims: Claims {
            holds: one(alloc, 43)?,
            fails: one(alloc, 4512)?,
        },
    });
    Ok(check(alloc, &laws, &body, &[]))
}

#[test]
fn a_linear_magma_refutes(rt: HostRuntime) {
    let fact = checked(rt.alloc(), 2).expect(&rt, "memory");
    assert!(rt; matches!(fact, Ok(Fact::Refutes { .. })));
    let out = checked(rt.alloc(), 3).expect(&rt, "memory");
    assert!(rt;
        matches!(
            out,
            Err(CheckRefusal::Linear(LinearRefusal::Coefficient {
                which: Which::A,
                value: 3
            }))
        )
    );
}

fn op(alloc: Global, left: Term, right: Term) -> Result<Term, NoMemory> {
    Ok(Term::Op(Boxed::new(alloc, left)?, Boxed::new(alloc, right)?))
}

/// The rule `(x * y) * z -> x * (y * z)`.
fn reassociation(alloc: Global) -> Result<RuleList, NoMemory> {
    let left = op(alloc, op(alloc, Term::Var(0), Term::Var(1))?, Term::Var(2))?;
    let right = op(alloc, Term::Var(0), op(alloc, Term::Var(1), Term::Var(2))?)?;
    let mut rules = RuleList::empty(alloc);
    rules.push(Rule { left, right })?;
    Ok(rules)
}

fn has_rules(rules: &RuleList) -> bool
    ensures { IsTrue result → HasRules (rules_of rules.now) }
{
    if rules.len() != 1 {
        return false;
    }
    rules.has_small_variables()
}

// Under this rule and a weight law 4512 is to hold and another to fail.
fn rewritten(
    alloc: Global,
    weight: [u32; 3],
    fails: u32,
) -> Result<Result<Fact, CheckRefusal>, NoMemory> {
    let laws = Laws::build(alloc)?;
    let rules = reassociation(alloc)?;
    if laws.law(4512).is_none() || laws.law(fails).is_none() {
        return Err(std::alloc::AllocError);
    }
    if !has_rules(&rules) {
        return Err(std::alloc::AllocError);
    }
    let body = RulesBody {
        weight,
        rules,
        claims: Claims {
            holds: one(alloc, 4512)?,
            fails: one(alloc, fails)?,
        },
    };
    if let Err(refusal) = system_of(alloc, &body) {
        return Ok(Err(refusal));
    }
    Ok(check(alloc, &laws, &Body::Rules(body), &[]))
}

#[test]
fn a_rule_system_refutes(rt: HostRuntime) {
    let fact = rewritten(rt.alloc(), [2, 1, 1], 43).expect(&rt, "memory");
    assert!(rt; matches!(fact, Ok(Fact::Refutes { .. })));
    let held = rewritten(rt.alloc(), [2, 1, 1], 4512).expect(&rt, "memory");
    assert!(rt; matches!(held, Err(CheckRefusal::FailsHolds { law: 4512, .. })));
    let out = rewritten(rt.alloc(), [0, 1, 1], 43).expect(&rt, "memory");
    assert!(rt;
        matches!(
            out,
            Err(CheckRefusal::Rules(RulesRefusal::WeightRange { which: 0 }))
        )
    );
}
