// What a line of a finite proof says: what a line of any body does, or that it cancels.
ghost use Rattle.std.specs.Prelude.{◌≤◌, length, IfOk, MatchOption};
ghost use Rattle.etp_reading.specs.Tallies.{HasFirst};
ghost use Rattle.etp_finite_lines.specs.FiniteLines as Lines;
ghost use Rattle.etp_finite_lines.specs.FiniteLines.{Says, numbers_of};
ghost use Rattle.etp_finite_lines.specs.Said.{finite_line_of};

use crate::cancel::{CancelLine, cancel_line};
use etp_lines::{Line, read_line};
use etp_reading::Tally;
use etp_term::NoMemory;
use std::alloc::Global;

/// What a line says.
#[derive(Drop)]
pub enum FiniteLine {
    Body(Line),
    Cancel(CancelLine),
}

impl FiniteLine {
    /// The first law number of the line that isn't listed.
    pub fn first_unlisted(&self, tally: &Tally) -> Option<u32>
        ensures { HasFirst tally.now.count (numbers_of (finite_line_of self.now)) result }
    {
        match self {
            FiniteLine::Body(said) => said.first_unlisted(tally),
            FiniteLine::Cancel(_) => None,
        }
    }
}

/// What the line says; None where it says nothing.
pub fn read_finite_line(alloc: Global, line: &[u8]) -> Result<Option<FiniteLine>, NoMemory>
    requires { length line.now ≤ 4096 }
    ensures { IfOk result (λ o. MatchOption o ((l : Lines.FiniteLine) → Says line.now l → ⊥)
        (λ l. Says line.now (finite_line_of l))) }
{
    if let Some(said) = cancel_line(alloc, line)? {
        return Ok(Some(FiniteLine::Cancel(said)));
    }
    match read_line(alloc, line)? {
        Some(said) => Ok(Some(FiniteLine::Body(said))),
        None => Ok(None),
    }
}
