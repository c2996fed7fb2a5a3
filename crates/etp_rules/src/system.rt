// Systems of decreasing rules.
ghost use Rattle.etp_rules.specs.Systems.{IsSystem};

use crate::deciding::RulesRefusal;
use crate::finding::{Fired, first_step};
use crate::normal::{Normal, normal_form};
use crate::rule::{Rule, RuleList};
use crate::weighing::{WeightForm, Weights};
use etp_term::{NoMemory, Term};
use std::alloc::Global;

/// 1 to 64 rules that lower a linear weight.
#[derive(Drop)]
pub struct RuleSystem {
    weights: Weights,
    rules: RuleList,
    pub ghost valid: { IsSystem weights rules },
}

impl RuleSystem {
    ghost use Rattle.std.specs.Prelude.{◌≡◌, ◌≤◌, length, IfOk, IfErr};
    ghost use Rattle.std.specs.Option.{option_copied};
    ghost use Rattle.etp_theory.specs.Trees.{ops, bound};
    ghost use Rattle.etp_theory.specs.Overlaps.{HasSmallVariables};
    ghost use Rattle.etp_term.specs.Terms.{tree_of};
    ghost use Rattle.etp_rules.specs.Weighing.{weight_of, IsFormFor};
    ghost use Rattle.etp_rules.specs.Rules.{rules_of};
    ghost use Rattle.etp_rules.specs.Deciding.{weight_in, IsRefused};
    ghost use Rattle.etp_rules.specs.Systems.{rule_numbered};
    ghost use Rattle.etp_rules.specs.Finding.{IsFirstStep};
    ghost use Rattle.etp_rules.specs.Forms.{IsNormal};

    /// The system of the weight and the rules; the rules are dropped where it is refused.
    pub fn of(weight: [u32; 3], rules: RuleList) -> Result<RuleSystem, RulesRefusal>
        requires some { 1 ≤ length rules }
        requires few { length rules ≤ 64 }
        requires variables { HasSmallVariables (rules_of rules) }
        ensures weight { IfOk result (λ system. weight_of system.weights ≡ weight_in weight) }
        ensures rules { IfOk result (λ system. system.rules ≡ rules) }
        ensures err { IfErr result (λ refusal. IsRefused (weight_in weight) (rules_of rules) refusal) }
    {
        let weights = Weights::of(weight)?;
        weights.check_rules(rules.as_slice())?;
        Ok(RuleSystem { weights, rules })
    }

    /// How many rules the system has.
    pub fn count(&self) -> u32
        ensures { result ≡ length self.now.rules }
    {
        self.rules.len()
    }

    /// The rule by its number from 1; None where no rule has it.
    pub fn rule(&self, n: u32) -> Option<&Rule>
        ensures { option_copied result ≡ rule_numbered self.now.rules n }
    {
        if n == 0 {
            return None;
        }
        self.rules.get(n - 1)
    }

    /// The weight of a term, by its coefficients and its constant.
    pub fn weight_form(&self, term: &Term) -> WeightForm
        requires few { ops (tree_of term.now) ≤ 12 }
        requires variables { bound (tree_of term.now) ≤ 64 }
        ensures { IsFormFor (weight_of self.now.weights) (tree_of term.now) result }
    {
        self.weights.form(term)
    }

    /// The strategy's step: in the left part, else in the right part, else at the root by the lowest
    /// matching rule. None where no rule matches at any position.
    pub fn first_step(&self, alloc: Global, term: &Term) -> Result<Option<Fired>, NoMemory>
        ensures { IfOk result (λ o. IsFirstStep (rules_of self.now.rules) (tree_of term.now) o) }
    {
        first_step(alloc, self.rules.as_slice(), term)
    }

    /// The end of the term's walk, or the limit that the walk passes.
    pub fn normal_form(&self, alloc: Global, term: &Term) -> Result<Normal, NoMemory>
        ensures { IfOk result (λ n. IsNormal (rules_of self.now.rules) (tree_of term.now) n) }
    {
        normal_form(alloc, self.rules.as_slice(), term)
    }
}
