// What a line of a rule system says.
ghost use Rattle.std.specs.Prelude.{◌≡◌, ◌≤◌, ◌↔◌, ℕ, List, IsTrue, length, slice_index, IfOk, IfSome, MatchOption};
ghost use Rattle.etp_theory.specs.Trees.{Equation};
ghost use Rattle.etp_rules.specs.Rules.{rule_of};
ghost use Rattle.etp_lines.specs.RulesLines as Lines;
ghost use Rattle.etp_lines.specs.RulesLines.{SaysRules, SaysWeight, SaysRule, SaysRulesLine, IsDivided};
ghost use Rattle.etp_lines.specs.Said.{rules_line_of};

use crate::sides::read_side;
use etp_rules::Rule;
use etp_term::NoMemory;
use etp_words::{behind, next_word, number_word};
use memchr::memmem;
use std::alloc::Global;

/// What a line of a rule system says.
#[derive(Drop)]
pub enum RulesLine {
    /// A rule system begins.
    Rules,
    /// How often the left part counts, how often the right part counts, and how much is added.
    Weight([u32; 3]),
    Rule(Rule),
}

/// Whether a rule system begins with the line.
fn is_opening(line: &[u8]) -> bool
    ensures { IsTrue result ↔ SaysRules line.now }
{
    match behind(line, "rules") {
        Some(rest) => next_word(rest).is_none(),
        None => false,
    }
}

/// The weight that the line says.
fn weight_line(line: &[u8]) -> Option<[u32; 3]>
    ensures { MatchOption result
        ((on_left on_right added : ℕ) → SaysWeight line.now on_left on_right added → ⊥)
        (λ w. SaysWeight line.now (slice_index w 0) (slice_index w 1) (slice_index w 2)) }
{
    let rest = behind(line, "weight")?;
    let (on_left, rest) = next_word(rest)?;
    let (on_right, rest) = next_word(rest)?;
    let (added, rest) = next_word(rest)?;
    if next_word(rest).is_some() {
        return None;
    }
    let on_left = number_word(on_left)?;
    let on_right = number_word(on_right)?;
    let added = number_word(added)?;
    Some([on_left, on_right, added])
}

/// What stands before the first `->` of a text, and what behind it.
fn divided(text: &[u8]) -> Option<(&[u8], &[u8])>
    ensures parts { MatchOption result ((left right : List ℕ) → IsDivided text.now left right → ⊥)
        (λ p. IsDivided text.now p.0.now p.1.now) }
    ensures left { IfSome result (λ p. length p.0.now ≤ length text.now) }
    ensures right { IfSome result (λ p. length p.1.now ≤ length text.now) }
{
    let at = memmem::find(text, b"->")?;
    Some((&text[..at], &text[at + 2..]))
}

/// The rule that the line says.
fn rule_line(alloc: Global, line: &[u8]) -> Result<Option<Rule>, NoMemory>
    requires { length line.now ≤ 4096 }
    ensures { IfOk result (λ o. MatchOption o ((r : Equation) → SaysRule line.now r → ⊥)
        (λ r. SaysRule line.now (rule_of r))) }
{
    let Some(rest) = behind(line, "rule") else {
        return Ok(None);
    };
    let Some((left, right)) = divided(rest) else {
        return Ok(None);
    };
    let Some(left) = read_side(alloc, left)? else {
        return Ok(None);
    };
    let Some(right) = read_side(alloc, right)? else {
        return Ok(None);
    };
    Ok(Some(Rule { left, right }))
}

/// What the line of a rule system says; None where it says nothing.
pub(crate) fn read_rules_line(alloc: Global, line: &[u8]) -> Result<Option<RulesLine>, NoMemory>
    requires { length line.now ≤ 4096 }
    ensures { IfOk result (λ o. MatchOption o ((l : Lines.RulesLine) → SaysRulesLine line.now l → ⊥)
        (λ l. SaysRulesLine line.now (rules_line_of l))) }
{
    if let Some(rule) = rule_line(alloc, line)? {
        return Ok(Some(RulesLine::Rule(rule)));
    }
    if let Some(weight) = weight_line(line) {
        return Ok(Some(RulesLine::Weight(weight)));
    }
    if is_opening(line) {
        return Ok(Some(RulesLine::Rules));
    }
    Ok(None)
}
