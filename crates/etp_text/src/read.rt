ghost use Rattle.std.specs.Prelude.{◌≡◌, ◌≤◌, ◌+◌, ◌<◌, length, IfOk, IfErr, MatchResult};
ghost use Rattle.etp_theory.specs.Trees.{Tree, Equation, leaves};
ghost use Rattle.etp_term.specs.Terms.{tree_of};
ghost use Rattle.etp_term.specs.Laws.{equation_of};
ghost use Rattle.etp_text.specs.Grammar.{SpellsTerm, SpellsLaw};
ghost use Rattle.etp_text.specs.Refusals.{side_limit, RefusesTerm, RefusesLaw, Gives};
ghost use Rattle.etp_text.specs.Machine.{state_of, text_of, HasReadAll, RefusesText};

use crate::reading::{Grammar, Reading};
use crate::refusal::TextRefusal;
use crate::token::token_at;
use etp_term::{Law, Term};
use etp_words::skip_blanks;
use std::alloc::Global;

/// The term that a text spells, where it has at most 255 leaves; else the first refusal. An
/// operator is `*` or `◇`, a variable `x`, `y`, `z`, `w`, `u`, `v` or `v6` to `v63`.
pub fn read_term(alloc: Global, bytes: &[u8]) -> Result<Term, TextRefusal>
    requires { length bytes.now ≤ 4096 }
    ensures spelled { IfOk result (λ t. SpellsTerm bytes.now (tree_of t)) }
    ensures small { IfOk result (λ t. leaves (tree_of t) ≤ side_limit) }
    ensures refused { IfErr result (RefusesTerm bytes.now) }
    ensures only { (t : Tree) → SpellsTerm bytes.now t → leaves t ≤ side_limit
        → Gives tree_of t result }
{
    let (reading, end) = read_text(alloc, bytes, Grammar::Terms)?;
    let term = reading.into_side(end)?;
    check_leaves(&term)?;
    Ok(term)
}

/// The law that a text spells, where each side has at most 255 leaves; else the first refusal.
pub fn read_law(alloc: Global, bytes: &[u8]) -> Result<Law, TextRefusal>
    requires { length bytes.now ≤ 4096 }
    ensures spelled { IfOk result (λ law. SpellsLaw bytes.now (equation_of law)) }
    ensures left { IfOk result (λ law. leaves (tree_of law.left) ≤ side_limit) }
    ensures right { IfOk result (λ law. leaves (tree_of law.right) ≤ side_limit) }
    ensures refused { IfErr result (RefusesLaw bytes.now) }
    ensures only { (law : Equation) → SpellsLaw bytes.now law → leaves law.left ≤ side_limit
        → leaves law.right ≤ side_limit → Gives equation_of law result }
{
    let (mut reading, end) = read_text(alloc, bytes, Grammar::Laws)?;
    let Some(left) = reading.left.take() else {
        return Err(TextRefusal::Syntax { at: end });
    };
    let right = reading.into_side(end)?;
    check_leaves(&left)?;
    check_leaves(&right)?;
    Ok(Law { left, right })
}

/// Reads all tokens of a text, and says behind which byte the last one ends.
fn read_text(alloc: Global, bytes: &[u8], grammar: Grammar) -> Result<(Reading, u32), TextRefusal>
    requires { length bytes.now ≤ 4096 }
    ensures { MatchResult result (λ r.
        HasReadAll grammar bytes.now (state_of r.0) r.1) (RefusesText (text_of grammar) bytes.now) }
{
    let mut reading = Reading::start(alloc);
    let mut rest = bytes;
    loop {
        let next = skip_blanks(rest);
        if next.is_empty() {
            return Ok((reading, place_of(bytes, rest)));
        }
        let at = place_of(bytes, next);
        let Some((token, behind)) = token_at(next) else {
            return Err(TextRefusal::Syntax { at });
        };
        reading.advance(alloc, grammar, token, at)?;
        rest = behind;
    }
}

/// The place of the rest of the bytes.
fn place_of(bytes: &[u8], rest: &[u8]) -> u32
    requires few { length bytes.now ≤ 4096 }
    requires within { length rest.now ≤ length bytes.now }
    ensures { result + length rest.now ≡ length bytes.now }
{
    (bytes.len() - rest.len()) as u32
}

/// Refuses a side of more than 255 leaves.
fn check_leaves(side: &Term) -> Result<(), TextRefusal>
    requires { leaves (tree_of side.now) ≤ 4096 }
    ensures { MatchResult result (λ _. leaves (tree_of side.now) ≤ side_limit)
        (λ e. (e ≡ TextRefusal.TooLarge (leaves (tree_of side.now)))
        × (side_limit < leaves (tree_of side.now))) }
{
    let leaves = side.leaves();
    if leaves > 255 {
        return Err(TextRefusal::TooLarge { leaves });
    }
    Ok(())
}
