// What the line of a linear magma says.
ghost use Rattle.std.specs.Prelude.{◌≡◌, ℕ, List, MatchOption};
ghost use Rattle.etp_words.specs.Words.{words_of};
ghost use Rattle.etp_linear.specs.Magmas.{LinearMagma};
ghost use Rattle.etp_lines.specs.LinearLines.{BeginsRing, SaysLinear};
ghost use Rattle.etp_lines.specs.LinearLines as Lines;
ghost use Rattle.etp_lines.specs.Said.{linear_of};

use etp_linear::Ring;
use etp_words::{behind, is, next_word, number_word};

/// The linear magma that a line tells.
#[derive(Clone, Copy)]
pub struct LinearLine {
    pub ring: Ring,
    pub a: i64,
    pub b: i64,
    pub c: i64,
}

/// The number that the word is, which may have one `-` directly before it.
fn integer_of(word: &[u8]) -> Option<i64>
    ensures { result ≡ Lines.integer_of word.now }
{
    match word {
        [b'-', digits @ ..] => Some(-i64::from(number_word(digits)?)),
        _ => Some(i64::from(number_word(word)?)),
    }
}

/// The ring that a text begins with, and the text behind it.
fn next_ring(text: &[u8]) -> Option<(Ring, &[u8])>
    ensures { MatchOption result
        ((ring : Ring) (behind : List (List ℕ)) → BeginsRing (words_of text.now) ring behind → ⊥)
        (λ p. BeginsRing (words_of text.now) p.0 (words_of p.1.now)) }
{
    let (word, rest) = next_word(text)?;
    if is(word, "int") {
        return Some((Ring::Integers, rest));
    }
    if !is(word, "mod") {
        return None;
    }
    let (word, rest) = next_word(rest)?;
    let modulus = number_word(word)?;
    Some((Ring::Modulo(modulus), rest))
}

/// What the line of a linear magma says; None where it says nothing.
pub(crate) fn read_linear_line(line: &[u8]) -> Option<LinearLine>
    ensures { MatchOption result ((l : LinearMagma) → SaysLinear line.now l → ⊥)
        (λ l. SaysLinear line.now (linear_of l)) }
{
    let rest = behind(line, "linear")?;
    let (ring, rest) = next_ring(rest)?;
    let (a, rest) = next_word(rest)?;
    let (b, rest) = next_word(rest)?;
    let (c, rest) = next_word(rest)?;
    if next_word(rest).is_some() {
        return None;
    }
    let a = integer_of(a)?;
    let b = integer_of(b)?;
    let c = integer_of(c)?;
    Some(LinearLine { ring, a, b, c })
}
