// What a line of claims says.
ghost use Rattle.std.specs.Prelude.{◌≡◌, ◌≤◌, length, IfOk, MatchOption};
ghost use Rattle.etp_reading.specs.Tallies.{HasFirst};
ghost use Rattle.etp_lines.specs.Claims as Lines;
ghost use Rattle.etp_lines.specs.Claims.{SaysClaimLine, numbers_of_claim};
ghost use Rattle.etp_lines.specs.Said.{claim_line_of};

use crate::numbers::read_numbers;
use etp_bits::Numbers;
use etp_reading::Tally;
use etp_term::NoMemory;
use etp_words::{is, next_word};
use std::alloc::Global;

/// What a line of claims says: laws that are to hold, or that are to fail.
#[derive(Drop)]
pub enum ClaimLine {
    Holds(Numbers),
    Fails(Numbers),
}

impl ClaimLine {
    /// The first law number of the line that isn't listed.
    pub fn first_unlisted(&self, tally: &Tally) -> Option<u32>
        ensures { HasFirst tally.now.count (numbers_of_claim (claim_line_of self.now)) result }
    {
        match self {
            ClaimLine::Holds(numbers) => tally.first_of(numbers.as_slice()),
            ClaimLine::Fails(numbers) => tally.first_of(numbers.as_slice()),
        }
    }
}

/// What the line of claims says; None where it says nothing.
pub(crate) fn read_claim_line(alloc: Global, line: &[u8]) -> Result<Option<ClaimLine>, NoMemory>
    requires { length line.now ≤ 4096 }
    ensures { IfOk result (λ o. MatchOption o ((l : Lines.ClaimLine) → SaysClaimLine line.now l → ⊥)
        (λ l. SaysClaimLine line.now (claim_line_of l))) }
{
    let Some((word, rest)) = next_word(line) else {
        return Ok(None);
    };
    let holds = is(word, "holds");
    if !holds && !is(word, "fails") {
        return Ok(None);
    }
    let Some(numbers) = read_numbers(alloc, rest)? else {
        return Ok(None);
    };
    if numbers.is_empty() {
        return Ok(None);
    }
    if holds {
        return Ok(Some(ClaimLine::Holds(numbers)));
    }
    Ok(Some(ClaimLine::Fails(numbers)))
}
