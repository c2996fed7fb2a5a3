// The rule system that lines make.
ghost use Rattle.std.specs.Prelude.{◌≡◌, IfOk, OnErr};
ghost use Rattle.etp_lines.specs.RulesLines as Lines;
ghost use Rattle.etp_lines.specs.Said.{rules_line_of};
ghost use Rattle.etp_items.specs.Work.{OpensRules, TakesInRules, rules_place};

use etp_lines::RulesLine;
use etp_rules::{Rule, RuleList};
use etp_term::NoMemory;
use std::alloc::Global;

/// The most rules of a system.
const RULE_LIMIT: u32 = 64;

/// A rule system as far as its lines have been read.
#[derive(Drop)]
pub(crate) struct RulesWork {
    /// None where the line `rules` stands alone.
    pub weight: Option<[u32; 3]>,
    pub rules: RuleList,
}

impl RulesWork {
    /// A system with its first line, which is to be the line `rules`.
    pub(crate) fn open(alloc: Global, said: RulesLine) -> Option<RulesWork>
        ensures { OpensRules (rules_line_of said) result }
    {
        match said {
            RulesLine::Rules => Some(RulesWork {
                weight: None,
                rules: RuleList::empty(alloc),
            }),
            RulesLine::Weight(_) | RulesLine::Rule(_) => None,
        }
    }

    /// Takes what the next line says, where that may stand.
    pub(crate) fn take(&mut self, said: RulesLine) -> Result<bool, NoMemory>
        ensures ok { IfOk result (TakesInRules self.old (rules_line_of said) self.new) }
        ensures err { OnErr result (self.new ≡ self.old) }
    {
        match said {
            RulesLine::Rules => Ok(false),
            RulesLine::Weight(weight) => Ok(self.take_weight(weight)),
            RulesLine::Rule(rule) => self.take_rule(rule),
        }
    }

    fn take_weight(&mut self, weight: [u32; 3]) -> bool
        ensures { TakesInRules self.old (rules_line_of (RulesLine.Weight weight)) self.new result }
    {
        if self.weight.is_some() {
            return false;
        }
        self.weight = Some(weight);
        true
    }

    fn take_rule(&mut self, rule: Rule) -> Result<bool, NoMemory>
        ensures ok { IfOk result (TakesInRules self.old
            (rules_line_of (RulesLine.Rule rule)) self.new) }
        ensures err { OnErr result (self.new ≡ self.old) }
    {
        if self.weight.is_none() || self.rules.len() >= RULE_LIMIT {
            return Ok(false);
        }
        self.rules.push(rule)?;
        Ok(true)
    }

    /// Whether a rule stands.
    pub(crate) fn has_rule(&self) -> bool
        ensures { result ≡ Lines.has_rule (rules_place self.now) }
    {
        self.weight.is_some() && self.rules.len() >= 1
    }
}
