// Rules and lists of them.
ghost use Rattle.std.specs.Prelude.{◌≡◌, ◌<◌, ◌≤◌, ◌↔◌, ◌++◌, ◌∷◌, [], IsTrue, IfOk, OnOk, OnErr, length, slice_get};
ghost use Rattle.std.specs.Option.{option_copied};
ghost use Rattle.etp_theory.specs.Trees.{bound};
ghost use Rattle.etp_theory.specs.Overlaps.{HasSmallVariables};
ghost use Rattle.etp_term.specs.Terms.{tree_of};
ghost use Rattle.etp_rules.specs.Rules.{rules_of};

use etp_term::{NoMemory, Term};
use std::alloc::Global;
use std::marker::Model;

/// A rule: what its left side matches may be replaced by its right side.
#[derive(Drop)]
pub struct Rule {
    pub left: Term,
    pub right: Term,
}

impl Rule {
    /// An equal rule.
    fn copy(&self, alloc: Global) -> Result<Rule, NoMemory>
        ensures { IfOk result (λ r. r ≡ self.now) }
    {
        let left = self.left.copy(alloc)?;
        let right = self.right.copy(alloc)?;
        Ok(Rule { left, right })
    }
}

/// A list of rules.
#[derive(Drop)]
pub struct RuleList {
    rules: Vec<Rule>,
}

impl Model for RuleList {
    ghost use Rattle.std.specs.Prelude.{List, length, ◌<◌, ◌^◌};
    ghost use Rattle.std.specs.Coded.{codes};
    ghost use Rattle.etp_term.specs.contracts.term.Term as term;
    ghost use Rattle.etp_rules.specs.declared.rule.Rule.{Rule};

    ghost Value = { List Rule };

    ghost coded = { Prim.hlevel (codes, term.the_row.coded) };

    ghost view = { λ r. r.rules.items };

    ghost invariant = { λ r. length r.rules.items < 2 ^ 32 };
}

impl RuleList {
    /// The list without rules. It takes no memory; the allocator serves later growth.
    pub fn empty(alloc: Global) -> RuleList
        ensures { result ≡ [] }
    {
        RuleList {
            rules: Vec::new(alloc),
        }
    }

    /// How many rules the list has.
    pub fn len(&self) -> u32
        ensures { result ≡ length self.now }
    {
        self.rules.len() as u32
    }

    /// The rule at a place counted from 0; None where the place isn't below the length.
    pub fn get(&self, at: u32) -> Option<&Rule>
        ensures { option_copied result ≡ slice_get self.now at }
    {
        self.rules.get(at as usize)
    }

    /// Appends a rule.
    pub fn push(&mut self, rule: Rule) -> Result<(), NoMemory>
        requires { length self.old < 4294967295 }
        ensures ok { OnOk result (self.new ≡ self.old ++ rule ∷ []) }
        ensures err { OnErr result (self.new ≡ self.old) }
    {
        self.rules.push(rule)?;
        Ok(())
    }

    /// An equal list.
    pub fn copy(&self, alloc: Global) -> Result<RuleList, NoMemory>
        ensures { IfOk result (λ rules. rules ≡ self.now) }
    {
        let mut copy = RuleList::empty(alloc);
        for at in 0..self.len() {
            if let Some(rule) = self.get(at) {
                copy.push(rule.copy(alloc)?)?;
            }
        }
        Ok(copy)
    }

    /// Whether every variable of the rules is below 64.
    pub fn has_small_variables(&self) -> bool
        ensures { IsTrue result → HasSmallVariables (rules_of self.now) }
    {
        are_small(self.as_slice())
    }

    /// All rules.
    pub(crate) fn as_slice(&self) -> &[Rule]
        ensures { result.now ≡ self.now }
    {
        self.rules.as_slice()
    }
}

/// Whether every variable of the rules is below 64.
fn are_small(rules: &[Rule]) -> bool
    ensures { IsTrue result ↔ HasSmallVariables (rules_of rules.now) }
{
    for rule in rules {
        if !is_small(&rule.left) {
            return false;
        }
        if !is_small(&rule.right) {
            return false;
        }
    }
    true
}

/// Whether every variable of the term is below 64.
fn is_small(term: &Term) -> bool
    ensures { IsTrue result ↔ (bound (tree_of term.now) ≤ 64) }
{
    match term {
        Term::Var(v) => *v < 64,
        Term::Op(l, r) => is_small(l.get()) && is_small(r.get()),
    }
}
