// What a line of a table says.
ghost use Rattle.std.specs.Prelude.{◌≡◌, ◌≤◌, ℕ, length, IfOk, MatchOption};
ghost use Rattle.etp_lines.specs.TableLines as Lines;
ghost use Rattle.etp_lines.specs.TableLines.{SaysTable, SaysTableLine};
ghost use Rattle.etp_lines.specs.Said.{table_line_of};

use crate::numbers::read_numbers;
use etp_bits::Numbers;
use etp_term::NoMemory;
use etp_words::{behind, next_word, number_word};
use std::alloc::Global;

/// What a line of a table says.
#[derive(Drop)]
pub enum TableLine {
    /// A table of this size begins.
    Table(u32),
    /// The entries of a row.
    Row(Numbers),
}

/// The size of the table that the line begins.
fn size_line(line: &[u8]) -> Option<u32>
    ensures { MatchOption result ((n : ℕ) → SaysTable line.now n → ⊥) (SaysTable line.now) }
{
    let rest = behind(line, "table")?;
    let (word, rest) = next_word(rest)?;
    if next_word(rest).is_some() {
        return None;
    }
    number_word(word)
}

/// What the line of a table says; None where it says nothing.
pub(crate) fn read_table_line(alloc: Global, line: &[u8]) -> Result<Option<TableLine>, NoMemory>
    requires { length line.now ≤ 4096 }
    ensures { IfOk result (λ o. MatchOption o ((l : Lines.TableLine) → SaysTableLine line.now l → ⊥)
        (λ l. SaysTableLine line.now (table_line_of l))) }
{
    if let Some(size) = size_line(line) {
        return Ok(Some(TableLine::Table(size)));
    }
    let Some(rest) = behind(line, "row") else {
        return Ok(None);
    };
    match read_numbers(alloc, rest)? {
        Some(entries) => Ok(Some(TableLine::Row(entries))),
        None => Ok(None),
    }
}
