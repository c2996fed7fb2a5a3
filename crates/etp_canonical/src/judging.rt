// Laws by the normal forms of both sides.
ghost use Rattle.std.specs.Prelude.{◌≡◌, All, Some, IsSome, IfOk, IfErr, OnOk};
ghost use Rattle.etp_theory.specs.LawNumbers.{law_numbered};
ghost use Rattle.etp_theory.specs.Reach.{refutes};
ghost use Rattle.etp_theory.specs.RightFacts.{IsRightFact};
ghost use Rattle.etp_theory.specs.Overlaps.{IsConvergent};
ghost use Rattle.etp_term.specs.Laws.{equation_of};
ghost use Rattle.etp_rules.specs.Rules.{rules_of};
ghost use Rattle.etp_rules.specs.Weighing.{weight_of};
ghost use Rattle.etp_canonical.specs.Judgements.{LawHolds, LawFails, IsJudged, IsWhyNotHolding, IsWhyNotFailing, IsHoldsOffence, IsFailsOffence, IsFirstOffence, OrNoMemory};
ghost use Rattle.etp_canonical.specs.Looking.{IsLawJudged};

use crate::refusal::ClaimRefusal;
use etp_laws::Laws;
use etp_pairs::{Judged, judge_terms};
use etp_rules::RuleSystem;
use etp_term::{Law, NoMemory};
use std::alloc::Global;

/// Whether both sides of each law of `holds` have one normal form, and those of each law of `fails`
/// two different ones; law by law, `holds` first. Where the system is convergent, no law of `holds`
/// then implies a law of `fails` (Knuth and Bendix 1970).
pub fn judge(
    alloc: Global,
    system: &RuleSystem,
    laws: &Laws,
    holds: &[u32],
    fails: &[u32],
) -> Result<(), ClaimRefusal>
    requires holds { All (λ n. IsSome (law_numbered laws.now.equations n)) holds.now }
    requires fails { All (λ n. IsSome (law_numbered laws.now.equations n)) fails.now }
    ensures ok { OnOk result
        (IsJudged laws.now.equations (rules_of system.now.rules) holds.now fails.now) }
    ensures means { OnOk result
        (IsConvergent (weight_of system.now.weights) (rules_of system.now.rules)
        → IsRightFact laws.now.equations (refutes holds.now fails.now)) }
    ensures err { IfErr result (λ r. OrNoMemory (IsFirstOffence laws.now.equations
        (rules_of system.now.rules) holds.now fails.now) r) }
{
    check_holds(alloc, system, laws, holds)?;
    check_fails(alloc, system, laws, fails)?;
    Ok(())
}

/// Whether each of these laws holds.
fn check_holds(
    alloc: Global,
    system: &RuleSystem,
    laws: &Laws,
    holds: &[u32],
) -> Result<(), ClaimRefusal>
    requires { All (λ n. IsSome (law_numbered laws.now.equations n)) holds.now }
    ensures ok { OnOk result
        (All (LawHolds laws.now.equations (rules_of system.now.rules)) holds.now) }
    ensures err { IfErr result (λ r. OrNoMemory
        (IsHoldsOffence laws.now.equations (rules_of system.now.rules) holds.now) r) }
{
    for number in holds {
        check_that_holds(alloc, system, laws, *number)?;
    }
    Ok(())
}

/// Whether each of these laws fails.
fn check_fails(
    alloc: Global,
    system: &RuleSystem,
    laws: &Laws,
    fails: &[u32],
) -> Result<(), ClaimRefusal>
    requires { All (λ n. IsSome (law_numbered laws.now.equations n)) fails.now }
    ensures ok { OnOk result
        (All (LawFails laws.now.equations (rules_of system.now.rules)) fails.now) }
    ensures err { IfErr result (λ r. OrNoMemory
        (IsFailsOffence laws.now.equations (rules_of system.now.rules) fails.now) r) }
{
    for number in fails {
        check_that_fails(alloc, system, laws, *number)?;
    }
    Ok(())
}

/// Whether both sides of the law have one normal form.
fn check_that_holds(
    alloc: Global,
    system: &RuleSystem,
    laws: &Laws,
    number: u32,
) -> Result<(), ClaimRefusal>
    requires { IsSome (law_numbered laws.now.equations number) }
    ensures ok { OnOk result (LawHolds laws.now.equations (rules_of system.now.rules) number) }
    ensures err { IfErr result (λ r. OrNoMemory
        (IsWhyNotHolding laws.now.equations (rules_of system.now.rules) number) r) }
{
    match judge_law(alloc, system, laws, number)? {
        Judged::OneForm(_) => Ok(()),
        Judged::TwoForms(left_form, right_form) => Err(ClaimRefusal::HoldsFails {
            law: number,
            left_form,
            right_form,
        }),
        Judged::TermLimit => Err(ClaimRefusal::TermLimit { law: number }),
        Judged::StepLimit => Err(ClaimRefusal::StepLimit { law: number }),
    }
}

/// Whether both sides of the law have two different normal forms.
fn check_that_fails(
    alloc: Global,
    system: &RuleSystem,
    laws: &Laws,
    number: u32,
) -> Result<(), ClaimRefusal>
    requires { IsSome (law_numbered laws.now.equations number) }
    ensures ok { OnOk result (LawFails laws.now.equations (rules_of system.now.rules) number) }
    ensures err { IfErr result (λ r. OrNoMemory
        (IsWhyNotFailing laws.now.equations (rules_of system.now.rules) number) r) }
{
    match judge_law(alloc, system, laws, number)? {
        Judged::OneForm(form) => Err(ClaimRefusal::FailsHolds { law: number, form }),
        Judged::TwoForms(_, _) => Ok(()),
        Judged::TermLimit => Err(ClaimRefusal::TermLimit { law: number }),
        Judged::StepLimit => Err(ClaimRefusal::StepLimit { law: number }),
    }
}

/// What is found of the sides of the law of a listed number.
fn judge_law(
    alloc: Global,
    system: &RuleSystem,
    laws: &Laws,
    number: u32,
) -> Result<Judged, NoMemory>
    requires { IsSome (law_numbered laws.now.equations number) }
    ensures { IfOk result (λ judged.
        IsLawJudged laws.now.equations (rules_of system.now.rules) number judged) }
{
    let law = listed(laws, number);
    judge_terms(alloc, system, &law.left, &law.right)
}

/// The law of a listed number.
fn listed(laws: &Laws, number: u32) -> &Law
    requires { IsSome (law_numbered laws.now.equations number) }
    ensures { law_numbered laws.now.equations number ≡ Some (equation_of result.now) }
{
    match laws.law(number) {
        Some(law) => law,
        None => unreachable!(),
    }
}
