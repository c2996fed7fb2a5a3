// What a line that cancels says.
ghost use Rattle.std.specs.Prelude.{◌≤◌, ℕ, List, length, IfOk, IfSome, MatchOption};
ghost use Rattle.etp_cancel.specs.Cancelling.{Cancel};
ghost use Rattle.etp_finite_lines.specs.CancelLines.{SaysCancel, IsParted};
ghost use Rattle.etp_finite_lines.specs.Said.{cancel_of, HasCancelWords};

use crate::sides::{read_side, variable_word};
use etp_term::{NoMemory, Term};
use etp_words::{behind, next_word, number_word};
use memchr::memmem;
use std::alloc::Global;

/// A line that cancels: the number of a line of the proof, a variable, and the two terms.
#[derive(Drop)]
pub struct CancelLine {
    pub line: u32,
    pub variable: u8,
    pub outer: Term,
    pub inner: Term,
}

/// The words of a line that cancels behind its first, and the texts of its terms.
#[derive(Clone, Copy)]
struct CancelWords<'a> {
    line: u32,
    variable: &'a [u8],
    outer: &'a [u8],
    inner: &'a [u8],
}

/// What stands before the first `;` of a text, and what behind it.
fn parted(text: &[u8]) -> Option<(&[u8], &[u8])>
    ensures parts { MatchOption result ((left right : List ℕ) → IsParted text.now left right → ⊥)
        (λ p. IsParted text.now p.0.now p.1.now) }
    ensures left { IfSome result (λ p. length p.0.now ≤ length text.now) }
    ensures right { IfSome result (λ p. length p.1.now ≤ length text.now) }
{
    let at = memmem::find(text, b";")?;
    Some((&text[..at], &text[at + 1..]))
}

fn cancel_words(text: &[u8]) -> Option<CancelWords<'_>>
    ensures words { MatchOption result ((c : Cancel) → SaysCancel text.now c → ⊥)
        (λ w. HasCancelWords text.now w) }
    ensures variable { IfSome result (λ w. length w.variable.now ≤ length text.now) }
    ensures outer { IfSome result (λ w. length w.outer.now ≤ length text.now) }
    ensures inner { IfSome result (λ w. length w.inner.now ≤ length text.now) }
{
    let rest = behind(text, "cancel")?;
    let (reference, rest) = next_word(rest)?;
    let (variable, rest) = next_word(rest)?;
    let line = number_word(reference)?;
    let (outer, inner) = parted(rest)?;
    Some(CancelWords {
        line,
        variable,
        outer,
        inner,
    })
}

/// What the line that cancels says; None where it is no such line.
pub(crate) fn cancel_line(alloc: Global, line: &[u8]) -> Result<Option<CancelLine>, NoMemory>
    requires { length line.now ≤ 4096 }
    ensures { IfOk result (λ o. MatchOption o ((c : Cancel) → SaysCancel line.now c → ⊥)
        (λ c. SaysCancel line.now (cancel_of c))) }
{
    let Some(words) = cancel_words(line) else {
        return Ok(None);
    };
    let Some(variable) = variable_word(alloc, words.variable)? else {
        return Ok(None);
    };
    let Some(outer) = read_side(alloc, words.outer)? else {
        return Ok(None);
    };
    let Some(inner) = read_side(alloc, words.inner)? else {
        return Ok(None);
    };
    Ok(Some(CancelLine {
        line: words.line,
        variable,
        outer,
        inner,
    }))
}
