// What a line of a body says, by its kind.
ghost use Rattle.std.specs.Prelude.{◌≡◌, ◌≤◌, length, IfOk, MatchOption};
ghost use Rattle.std.specs.Option.{option_map};
ghost use Rattle.etp_reading.specs.Tallies.{HasFirst};
ghost use Rattle.etp_words.specs.Words.{words_of, are_blank};
ghost use Rattle.etp_lines.specs.BodyLines as Lines;
ghost use Rattle.etp_lines.specs.BodyLines.{Says, kind_named, numbers_of};
ghost use Rattle.etp_lines.specs.Said.{kind_of, line_of};

use crate::claims::{ClaimLine, read_claim_line};
use crate::linear::{LinearLine, read_linear_line};
use crate::matrix::{MatrixLine, read_matrix_line};
use crate::proof::{ProofLine, read_proof_line};
use crate::rules::{RulesLine, read_rules_line};
use crate::table::{TableLine, read_table_line};
use etp_reading::Tally;
use etp_term::NoMemory;
use etp_words::{is, is_comment, next_word};
use std::alloc::Global;

/// What a line of a body says.
#[derive(Drop)]
pub enum Line {
    Proof(ProofLine),
    Table(TableLine),
    Linear(LinearLine),
    Matrix(MatrixLine),
    Rules(RulesLine),
    Claim(ClaimLine),
}

impl Line {
    /// The first law number of the line that isn't listed.
    pub fn first_unlisted(&self, tally: &Tally) -> Option<u32>
        ensures { HasFirst tally.now.count (numbers_of (line_of self.now)) result }
    {
        match self {
            Line::Proof(said) => said.first_unlisted(tally),
            Line::Table(_) | Line::Linear(_) | Line::Matrix(_) | Line::Rules(_) => None,
            Line::Claim(said) => said.first_unlisted(tally),
        }
    }
}

/// The kinds of lines.
#[derive(Clone, Copy)]
enum Kind {
    OfProofs,
    OfTables,
    OfLinear,
    OfMatrices,
    OfRules,
    OfClaims,
}

/// The kind of a line with this first word.
fn kind_named(word: &[u8]) -> Option<Kind>
    ensures { option_map kind_of result ≡ kind_named word.now }
{
    if is(word, "proof")
        || is(word, "proof2")
        || is(word, "cite")
        || is(word, "lemma")
        || is(word, "step")
    {
        return Some(Kind::OfProofs);
    }
    if is(word, "table") || is(word, "row") {
        return Some(Kind::OfTables);
    }
    if is(word, "linear") {
        return Some(Kind::OfLinear);
    }
    if is(word, "matrix") || is(word, "a") || is(word, "b") || is(word, "c") {
        return Some(Kind::OfMatrices);
    }
    if is(word, "rules") || is(word, "weight") || is(word, "rule") {
        return Some(Kind::OfRules);
    }
    if is(word, "holds") || is(word, "fails") {
        return Some(Kind::OfClaims);
    }
    None
}

/// Whether the line says nothing: it has no words, or its first word begins with `#`.
pub fn is_blank_line(line: &[u8]) -> bool
    ensures { result ≡ are_blank (words_of line.now) }
{
    match next_word(line) {
        None => true,
        Some((word, _)) => is_comment(word),
    }
}

/// What the line says; None where it says nothing.
pub fn read_line(alloc: Global, line: &[u8]) -> Result<Option<Line>, NoMemory>
    requires { length line.now ≤ 4096 }
    ensures { IfOk result (λ o. MatchOption o ((l : Lines.Line) → Says line.now l → ⊥)
        (λ l. Says line.now (line_of l))) }
{
    let Some((word, _)) = next_word(line) else {
        return Ok(None);
    };
    match kind_named(word) {
        Some(Kind::OfProofs) => match read_proof_line(alloc, line)? {
            Some(said) => Ok(Some(Line::Proof(said))),
            None => Ok(None),
        },
        Some(Kind::OfTables) => match read_table_line(alloc, line)? {
            Some(said) => Ok(Some(Line::Table(said))),
            None => Ok(None),
        },
        Some(Kind::OfLinear) => match read_linear_line(line) {
            Some(said) => Ok(Some(Line::Linear(said))),
            None => Ok(None),
        },
        Some(Kind::OfMatrices) => match read_matrix_line(alloc, line)? {
            Some(said) => Ok(Some(Line::Matrix(said))),
            None => Ok(None),
        },
        Some(Kind::OfRules) => match read_rules_line(alloc, line)? {
            Some(said) => Ok(Some(Line::Rules(said))),
            None => Ok(None),
        },
        Some(Kind::OfClaims) => match read_claim_line(alloc, line)? {
            Some(said) => Ok(Some(Line::Claim(said))),
            None => Ok(None),
        },
        None => Ok(None),
    }
}
