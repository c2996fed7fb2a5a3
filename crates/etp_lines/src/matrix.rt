// What a line of a matrix-linear magma says.
ghost use Rattle.std.specs.Prelude.{◌≡◌, ◌≤◌, ◌∷◌, ℕ, List, length, IfOk, IfSome, MatchOption};
ghost use Rattle.etp_words.specs.Words.{words_of};
ghost use Rattle.etp_lines.specs.MatrixLines as Lines;
ghost use Rattle.etp_lines.specs.MatrixLines.{SaysMatrix, SaysMatrixLine, part_word};
ghost use Rattle.etp_lines.specs.Said.{matrix_line_of};

use crate::numbers::read_numbers;
use etp_bits::Numbers;
use etp_matrix::Part;
use etp_term::NoMemory;
use etp_words::{behind, next_word, number_word};
use std::alloc::Global;

/// What a line of a matrix-linear magma says.
#[derive(Drop)]
pub enum MatrixLine {
    /// A magma modulo the first number over vectors of so many numbers as the second says begins.
    Matrix(u32, u32),
    /// A row of A or of B, or the vector c.
    Row(Part, Numbers),
}

/// The modulus and the size of the magma that the line begins.
fn heading(line: &[u8]) -> Option<(u32, u32)>
    ensures { MatchOption result ((m n : ℕ) → SaysMatrix line.now m n → ⊥)
        (λ p. SaysMatrix line.now p.0 p.1) }
{
    let rest = behind(line, "matrix")?;
    let (modulus, rest) = next_word(rest)?;
    let (size, rest) = next_word(rest)?;
    if next_word(rest).is_some() {
        return None;
    }
    let modulus = number_word(modulus)?;
    let size = number_word(size)?;
    Some((modulus, size))
}

/// The part whose row the line is, and the text behind its first word.
fn part(line: &[u8]) -> Option<(Part, &[u8])>
    ensures shorter { IfSome result (λ p. length p.1.now ≤ length line.now) }
    ensures said { MatchOption result
        ((part : Part) (entries : List ℕ) → SaysMatrixLine line.now (Lines.row part entries) → ⊥)
        (λ p. words_of line.now ≡ part_word p.0 ∷ words_of p.1.now) }
{
    if let Some(rest) = behind(line, "a") {
        return Some((Part::A, rest));
    }
    if let Some(rest) = behind(line, "b") {
        return Some((Part::B, rest));
    }
    let rest = behind(line, "c")?;
    Some((Part::C, rest))
}

/// What the line of a matrix-linear magma says; None where it says nothing.
pub(crate) fn read_matrix_line(alloc: Global, line: &[u8]) -> Result<Option<MatrixLine>, NoMemory>
    requires { length line.now ≤ 4096 }
    ensures { IfOk result (λ o. MatchOption o ((l : Lines.MatrixLine) → SaysMatrixLine line.now l → ⊥)
        (λ l. SaysMatrixLine line.now (matrix_line_of l))) }
{
    if let Some((modulus, size)) = heading(line) {
        return Ok(Some(MatrixLine::Matrix(modulus, size)));
    }
    let Some((part, rest)) = part(line) else {
        return Ok(None);
    };
    match read_numbers(alloc, rest)? {
        Some(entries) => Ok(Some(MatrixLine::Row(part, entries))),
        None => Ok(None),
    }
}
