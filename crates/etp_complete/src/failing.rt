// The first thing that doesn't have one normal form.
ghost use Rattle.std.specs.Prelude.{◌≡◌, Some, IsSome, IfOk};
ghost use Rattle.etp_theory.specs.LawNumbers.{law_numbered};
ghost use Rattle.etp_term.specs.Laws.{equation_of};
ghost use Rattle.etp_laws.specs.Listing.{IsTheList};
ghost use Rattle.etp_rules.specs.Rules.{rules_of};
ghost use Rattle.etp_rules.specs.Weighing as Weighing;
ghost use Rattle.etp_rules.specs.Deciding.{weight_in};
ghost use Rattle.etp_complete.specs.declared.answer.Origin.TheVariants.{Pair};
ghost use Rattle.etp_complete.specs.Rounds.{problem, IsFailing, IsFailingPair};

use crate::answer::Origin;
use crate::asking::Question;
use etp_laws::Laws;
use etp_pairs::{Judged, PairsRefusal, convergent, judge_terms};
use etp_rules::RuleSystem;
use etp_term::{Law, NoMemory, Position, Term};
use std::alloc::{AllocError, Global};

/// What fails first.
#[derive(Drop)]
pub(crate) enum Failing {
    /// Everything has one normal form.
    Nothing,
    /// This has two.
    Forms(Origin, Term, Term),
    /// A walk of this comes to a term of more than 512 leaves.
    TermLimit(Origin),
    /// A walk of this has more than 100000 steps.
    StepLimit(Origin),
}

/// The first that doesn't have one normal form: the law, or else the first overlap of the rules.
pub(crate) fn first_failing(
    alloc: Global,
    laws: &Laws,
    asked: Question,
    system: &RuleSystem,
) -> Result<Failing, NoMemory>
    requires from { IsSome (law_numbered laws.now.equations asked.from) }
    requires weight { Weighing.weight_of system.now.weights ≡ weight_in asked.weight }
    ensures { IfOk result (λ f. IsFailing (problem laws.now.equations asked)
        (rules_of system.now.rules) f) }
{
    let law = listed(laws, asked.from);
    match judge_terms(alloc, system, &law.left, &law.right)? {
        Judged::OneForm(_) => {}
        Judged::TwoForms(left, right) => {
            return Ok(Failing::Forms(Origin::Law(asked.from), left, right));
        }
        Judged::TermLimit => return Ok(Failing::TermLimit(Origin::Law(asked.from))),
        Judged::StepLimit => return Ok(Failing::StepLimit(Origin::Law(asked.from))),
    }
    first_pair(alloc, system)
}

/// The first overlap of the rules whose two results don't have one normal form.
fn first_pair(alloc: Global, system: &RuleSystem) -> Result<Failing, NoMemory>
    ensures { IfOk result (IsFailingPair (Weighing.weight_of system.now.weights)
        (rules_of system.now.rules)) }
{
    match convergent(alloc, system) {
        Ok(()) => Ok(Failing::Nothing),
        Err(
            PairsRefusal::Unjoinable {
                outer,
                position,
                inner,
                left_form,
                right_form,
            },
        ) => Ok(Failing::Forms(pair(outer, position, inner), left_form, right_form)),
        Err(
            PairsRefusal::TermLimit {
                outer,
                position,
                inner,
            },
        ) => Ok(Failing::TermLimit(pair(outer, position, inner))),
        Err(
            PairsRefusal::StepLimit {
                outer,
                position,
                inner,
            },
        ) => Ok(Failing::StepLimit(pair(outer, position, inner))),
        Err(PairsRefusal::NoMemory) => Err(AllocError),
    }
}

/// The overlap of two rules.
fn pair(outer: u32, position: Position, inner: u32) -> Origin
    ensures { result ≡ Pair outer position inner }
{
    Origin::Pair {
        outer,
        position,
        inner,
    }
}

/// The law of a listed number.
pub(crate) fn listed(laws: &Laws, number: u32) -> &Law
    requires { IsSome (law_numbered laws.now.equations number) }
    ensures law { law_numbered laws.now.equations number ≡ Some (equation_of result.now) }
    ensures list { IsTheList laws.now.order laws.now.equations }
{
    match laws.law(number) {
        Some(law) => law,
        None => unreachable!(),
    }
}
