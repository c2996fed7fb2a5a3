// Whether weights and rules are allowed, and the first that isn't.
ghost use Rattle.std.specs.Prelude.{◌≡◌, ◌≤◌, ◌<◌, length, IfOk, IfErr, MatchOption};
ghost use Rattle.etp_theory.specs.Trees.{ops, bound};
ghost use Rattle.etp_theory.specs.Overlaps.{HasSmallVariables};
ghost use Rattle.etp_term.specs.Terms.{tree_of};
ghost use Rattle.etp_rules.specs.Weighing.{weight_of, IsSmall};
ghost use Rattle.etp_rules.specs.Rules.{rule_of, rules_of};
ghost use Rattle.etp_rules.specs.Deciding.{weight_in, IsInRange, IsFirstOut, NoneSmaller, IsLeastSmaller, IsAllowed, AreAllowed, IsRuleRefused, IsFirstRefused};
ghost use Rattle.etp_rules.specs.Refused.{IsWeightRefused};

use crate::rule::Rule;
use crate::weighing::Weights;
use thiserror::Error;

/// Why a rule isn't decreasing: the least variable that is counted less on the left; where there is
/// none, a constant that is no greater on the left.
#[derive(Clone, Copy, Debug, PartialEq, Eq)]
pub enum Cause {
    Variable(u8),
    Constant,
}

/// Why a rule system is refused: its weights are looked at first, then its rules one after the other.
/// Rules count from 1.
#[derive(Clone, Copy, Debug, PartialEq, Eq, Error)]
pub enum RulesRefusal {
    /// The first weight out of range: 0, 1, 2 for what counts the left part, the right part, and what
    /// is added.
    #[error("a weight is out of range")]
    WeightRange { which: u8 },
    /// A side of the rule has more than 12 operations.
    #[error("a side of rule {rule} is too large")]
    SideTooLarge { rule: u32 },
    /// The rule doesn't lower the weight.
    #[error("rule {rule} isn't decreasing")]
    NotDecreasing { rule: u32, cause: Cause },
}

impl Weights {
    /// The weight, where the first two numbers are from 1 to 255 and the third is at most 255.
    pub(crate) fn of(weight: [u32; 3]) -> Result<Weights, RulesRefusal>
        ensures same { IfOk result (λ w. weight_of w ≡ weight_in weight) }
        ensures ok { IfOk result (λ w. IsInRange (weight_of w)) }
        ensures err { IfErr result (λ refusal. IsWeightRefused (weight_in weight) refusal) }
    {
        let on_left = weight[0];
        let on_right = weight[1];
        let added = weight[2];
        if on_left == 0 || on_left > 255 {
            return Err(RulesRefusal::WeightRange { which: 0 });
        }
        if on_right == 0 || on_right > 255 {
            return Err(RulesRefusal::WeightRange { which: 1 });
        }
        if added > 255 {
            return Err(RulesRefusal::WeightRange { which: 2 });
        }
        Ok(Weights {
            on_left,
            on_right,
            added,
        })
    }

    /// The least variable that is counted less on the left.
    fn least_smaller(self, rule: &Rule) -> Option<u8>
        requires small { IsSmall self }
        requires left { ops (tree_of rule.now.left) ≤ 12 }
        requires right { ops (tree_of rule.now.right) ≤ 12 }
        requires left_bound { bound (tree_of rule.now.left) ≤ 64 }
        requires right_bound { bound (tree_of rule.now.right) ≤ 64 }
        ensures { MatchOption result (NoneSmaller (weight_of self) (rule_of rule.now))
            (λ v. IsLeastSmaller (weight_of self) (rule_of rule.now) v) }
    {
        for variable in 0..64u8 {
            let left = self.coefficient(&rule.left, variable);
            let right = self.coefficient(&rule.right, variable);
            if left < right {
                return Some(variable);
            }
        }
        None
    }

    /// Whether the rule of this number is allowed, or why it is refused.
    fn check_rule(self, number: u32, rule: &Rule) -> Result<(), RulesRefusal>
        requires small { IsSmall self }
        requires left_bound { bound (tree_of rule.now.left) ≤ 64 }
        requires right_bound { bound (tree_of rule.now.right) ≤ 64 }
        ensures ok { IfOk result (λ _. IsAllowed (weight_of self) (rule_of rule.now)) }
        ensures err { IfErr result (λ refusal.
            IsRuleRefused (weight_of self) number (rule_of rule.now) refusal) }
    {
        if rule.left.ops() > 12 {
            return Err(RulesRefusal::SideTooLarge { rule: number });
        }
        if rule.right.ops() > 12 {
            return Err(RulesRefusal::SideTooLarge { rule: number });
        }
        match self.least_smaller(rule) {
            Some(variable) => {
                let cause = Cause::Variable(variable);
                Err(RulesRefusal::NotDecreasing {
                    rule: number,
                    cause,
                })
            }
            None => {
                let left = self.constant(&rule.left);
                let right = self.constant(&rule.right);
                if left <= right {
                    let cause = Cause::Constant;
                    return Err(RulesRefusal::NotDecreasing {
                        rule: number,
                        cause,
                    });
                }
                Ok(())
            }
        }
    }

    /// Whether all rules are allowed, or why the first that isn't is refused.
    pub(crate) fn check_rules(self, rules: &[Rule]) -> Result<(), RulesRefusal>
        requires small { IsSmall self }
        requires few { length rules.now ≤ 64 }
        requires variables { HasSmallVariables (rules_of rules.now) }
        ensures ok { IfOk result (λ _. AreAllowed (weight_of self) (rules_of rules.now)) }
        ensures err { IfErr result (λ refusal.
            IsFirstRefused (weight_of self) (rules_of rules.now) refusal) }
    {
        let mut number = 0;
        for rule in rules {
            number += 1;
            self.check_rule(number, rule)?;
        }
        Ok(())
    }
}
