// One more rule, from two normal forms.
ghost use Rattle.std.specs.Prelude.{◌≡◌, ◌<◌, ◌≤◌, length, IfOk};
ghost use Rattle.etp_theory.specs.Trees.{ops};
ghost use Rattle.etp_theory.specs.Overlaps.{HasSmallVariables};
ghost use Rattle.etp_term.specs.Terms.{tree_of};
ghost use Rattle.etp_rules.specs.Rules.{rules_of};
ghost use Rattle.etp_rules.specs.Deciding.{weight_in, AreAllowed};
ghost use Rattle.etp_complete.specs.Rounds.{IsDirected, IsGrowth};

use etp_numbering::number_anew;
use etp_rules::{Rule, RuleList, RuleSystem, RulesRefusal};
use etp_term::{NoMemory, Term};
use std::alloc::Global;

/// The most rules that a run may have.
const RULE_LIMIT: u32 = 64;

/// The most operations that a side of a rule may have.
const SIDE_LIMIT: u32 = 12;

/// What becomes of the rule from one term to another.
#[derive(Drop)]
enum Directed {
    /// The system has it too.
    Decreasing(RuleSystem),
    NotDecreasing,
    /// The first weight that is out of range.
    WeightRange(u8),
}

/// What two normal forms come to.
#[derive(Drop)]
pub(crate) enum Growth {
    /// A system with one more rule.
    Grown(RuleSystem),
    /// The first weight that is out of range.
    WeightRange(u8),
    /// There are as many rules as there may be.
    Full,
    /// A form has too many operations for a side of a rule.
    TooLarge,
    /// The rule isn't decreasing in either direction.
    Unorientable,
}

/// The system with one more rule, which the two forms give, or why there is none.
pub(crate) fn grow(
    alloc: Global,
    weight: [u32; 3],
    rules: &RuleList,
    left: &Term,
    right: &Term,
) -> Result<Growth, NoMemory>
    requires few { length rules.now ≤ 64 }
    requires variables { HasSmallVariables (rules_of rules.now) }
    requires allowed { AreAllowed (weight_in weight) (rules_of rules.now) }
    ensures { IfOk result (λ growth. IsGrowth (weight_in weight) (rules_of rules.now)
        (tree_of left.now) (tree_of right.now) growth) }
{
    if rules.len() >= RULE_LIMIT {
        return Ok(Growth::Full);
    }
    if left.ops() > SIDE_LIMIT {
        return Ok(Growth::TooLarge);
    }
    if right.ops() > SIDE_LIMIT {
        return Ok(Growth::TooLarge);
    }
    match with_rule(alloc, weight, rules, left, right)? {
        Directed::Decreasing(system) => return Ok(Growth::Grown(system)),
        Directed::WeightRange(which) => return Ok(Growth::WeightRange(which)),
        Directed::NotDecreasing => {}
    }
    match with_rule(alloc, weight, rules, right, left)? {
        Directed::Decreasing(system) => Ok(Growth::Grown(system)),
        Directed::WeightRange(which) => Ok(Growth::WeightRange(which)),
        Directed::NotDecreasing => Ok(Growth::Unorientable),
    }
}

/// The system with the rule from the first term to the second, its variables numbered through it,
/// where that is decreasing.
fn with_rule(
    alloc: Global,
    weight: [u32; 3],
    rules: &RuleList,
    from: &Term,
    to: &Term,
) -> Result<Directed, NoMemory>
    requires room { length rules.now < 64 }
    requires variables { HasSmallVariables (rules_of rules.now) }
    requires allowed { AreAllowed (weight_in weight) (rules_of rules.now) }
    requires left { ops (tree_of from.now) ≤ 12 }
    requires right { ops (tree_of to.now) ≤ 12 }
    ensures { IfOk result (λ d. IsDirected (weight_in weight) (rules_of rules.now)
        (tree_of from.now) (tree_of to.now) d) }
{
    let numbered = number_anew(alloc, from, to)?;
    let left = numbered.first;
    let right = numbered.second;
    let mut longer = rules.copy(alloc)?;
    longer.push(Rule { left, right })?;
    match RuleSystem::of(weight, longer) {
        Ok(system) => Ok(Directed::Decreasing(system)),
        Err(RulesRefusal::WeightRange { which }) => Ok(Directed::WeightRange(which)),
        Err(RulesRefusal::NotDecreasing { .. }) => Ok(Directed::NotDecreasing),
        Err(RulesRefusal::SideTooLarge { .. }) => unreachable!(),
    }
}
