// The rounds of a completion.
ghost use Rattle.std.specs.Prelude.{◌≡◌, ◌≤◌, ◌∷◌, [], length, IsSome, IfOk};
ghost use Rattle.etp_theory.specs.LawNumbers.{law_numbered};
ghost use Rattle.etp_theory.specs.Overlaps.{HasSmallVariables};
ghost use Rattle.etp_term.specs.Terms.{tree_of};
ghost use Rattle.etp_rules.specs.Rules.{rules_of};
ghost use Rattle.etp_rules.specs.Deciding.{weight_in, AreAllowed};
ghost use Rattle.etp_complete.specs.Completions.{IsComplete};
ghost use Rattle.etp_complete.specs.Answers.{EndsWith};
ghost use Rattle.etp_complete.specs.Rounds.{problem, GoesOn, IsReached, IsNext};

use crate::answer::{Completed, Origin};
use crate::asking::Question;
use crate::failing::{Failing, first_failing, listed};
use crate::growing::{Growth, grow};
use etp_bits::Numbers;
use etp_items::{Claims, RulesBody};
use etp_laws::Laws;
use etp_pairs::{Judged, judge_terms};
use etp_rules::{Rule, RuleList, RuleSystem};
use etp_term::{NoMemory, Term};
use std::alloc::Global;

/// What a round comes to.
#[derive(Drop)]
pub(crate) enum Round {
    /// One more rule.
    Grown(RuleSystem),
    /// The run ends.
    Ended(Completed),
}

/// The round of a run without rules: the law's sides are two normal forms.
pub(crate) fn first_round(alloc: Global, laws: &Laws, asked: Question) -> Result<Round, NoMemory>
    requires order { laws.now.order ≡ 4 }
    requires from { IsSome (law_numbered laws.now.equations asked.from) }
    requires proper { 2 ≤ asked.from }
    ensures { IfOk result (IsNext (problem laws.now.equations asked) 0) }
{
    let law = listed(laws, asked.from);
    let left = law.left.copy(alloc)?;
    let right = law.right.copy(alloc)?;
    let rules = RuleList::empty(alloc);
    add_rule(
        alloc,
        asked.weight,
        &rules,
        Origin::Law(asked.from),
        left,
        right,
    )
}

/// One round: what fails first gives one more rule or ends the run, or nothing fails.
pub(crate) fn next_round(
    alloc: Global,
    laws: &Laws,
    asked: Question,
    system: &RuleSystem,
) -> Result<Round, NoMemory>
    requires from { IsSome (law_numbered laws.now.equations asked.from) }
    requires target { IsSome (law_numbered laws.now.equations asked.target) }
    requires reached { IsReached (problem laws.now.equations asked) system.now }
    ensures { IfOk result (IsNext (problem laws.now.equations asked)
        (length (rules_of system.now.rules))) }
{
    match first_failing(alloc, laws, asked, system)? {
        Failing::Nothing => {
            let end = finish(alloc, laws, asked, system)?;
            Ok(Round::Ended(end))
        }
        Failing::Forms(origin, left, right) => {
            let rules = copied(alloc, system)?;
            add_rule(alloc, asked.weight, &rules, origin, left, right)
        }
        Failing::TermLimit(origin) => Ok(Round::Ended(Completed::TermLimit { origin })),
        Failing::StepLimit(origin) => Ok(Round::Ended(Completed::StepLimit { origin })),
    }
}

/// What two normal forms of the first thing that fails come to.
fn add_rule(
    alloc: Global,
    weight: [u32; 3],
    rules: &RuleList,
    origin: Origin,
    left: Term,
    right: Term,
) -> Result<Round, NoMemory>
    requires few { length rules.now ≤ 64 }
    requires variables { HasSmallVariables (rules_of rules.now) }
    requires allowed { AreAllowed (weight_in weight) (rules_of rules.now) }
    ensures { IfOk result (GoesOn weight (rules_of rules.now) origin (tree_of left)
        (tree_of right)) }
{
    match grow(alloc, weight, rules, &left, &right)? {
        Growth::Grown(system) => Ok(Round::Grown(system)),
        Growth::WeightRange(which) => Ok(Round::Ended(Completed::WeightRange { which })),
        Growth::Full => Ok(Round::Ended(Completed::Budget { origin })),
        Growth::TooLarge => Ok(Round::Ended(Completed::SideTooLarge {
            origin,
            left,
            right,
        })),
        Growth::Unorientable => Ok(Round::Ended(Completed::Unorientable {
            origin,
            left,
            right,
        })),
    }
}

/// How the run ends where nothing fails: by the normal forms of the target's sides.
fn finish(
    alloc: Global,
    laws: &Laws,
    asked: Question,
    system: &RuleSystem,
) -> Result<Completed, NoMemory>
    requires target { IsSome (law_numbered laws.now.equations asked.target) }
    requires complete { IsComplete (problem laws.now.equations asked) (rules_of system.now.rules) }
    ensures { IfOk result (EndsWith (problem laws.now.equations asked)
        (rules_of system.now.rules)) }
{
    let law = listed(laws, asked.target);
    match judge_terms(alloc, system, &law.left, &law.right)? {
        Judged::OneForm(form) => {
            let rules = copied(alloc, system)?;
            Ok(Completed::Joined { rules, form })
        }
        Judged::TwoForms(_, _) => {
            let body = body_of(alloc, asked, system)?;
            Ok(Completed::Done(body))
        }
        Judged::TermLimit => {
            let origin = Origin::Law(asked.target);
            Ok(Completed::TermLimit { origin })
        }
        Judged::StepLimit => {
            let origin = Origin::Law(asked.target);
            Ok(Completed::StepLimit { origin })
        }
    }
}

/// The weight and the rules, with the law as the one that holds and the target as the one that
/// fails.
fn body_of(alloc: Global, asked: Question, system: &RuleSystem) -> Result<RulesBody, NoMemory>
    ensures weight { IfOk result (λ body. body.weight ≡ asked.weight) }
    ensures rules { IfOk result (λ body. body.rules ≡ system.now.rules) }
    ensures holds { IfOk result (λ body. body.claims.holds ≡ asked.from ∷ []) }
    ensures fails { IfOk result (λ body. body.claims.fails ≡ asked.target ∷ []) }
{
    let rules = copied(alloc, system)?;
    let holds = one_number(alloc, asked.from)?;
    let fails = one_number(alloc, asked.target)?;
    let weight = asked.weight;
    let claims = Claims { holds, fails };
    Ok(RulesBody {
        weight,
        rules,
        claims,
    })
}

/// The list of one number.
fn one_number(alloc: Global, number: u32) -> Result<Numbers, NoMemory>
    ensures { IfOk result (λ numbers. numbers ≡ number ∷ []) }
{
    let mut numbers = Numbers::empty(alloc);
    numbers.push(number)?;
    Ok(numbers)
}

/// The rules of a system.
fn copied(alloc: Global, system: &RuleSystem) -> Result<RuleList, NoMemory>
    ensures { IfOk result (λ rules. rules ≡ system.now.rules) }
{
    let mut rules = RuleList::empty(alloc);
    for at in 0..system.count() {
        if let Some(rule) = system.rule(at + 1) {
            let left = rule.left.copy(alloc)?;
            let right = rule.right.copy(alloc)?;
            rules.push(Rule { left, right })?;
        }
    }
    Ok(rules)
}
