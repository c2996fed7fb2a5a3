// What is kept of the lines of a body as they are read: how many there are, the first bad one, and
// the first law number that isn't listed.
ghost use Rattle.std.specs.Prelude.{◌≡◌, ◌≤◌, ◌<◌, ◌+◌, ◌↔◌, IsTrue, true, false, None, Some};
ghost use Rattle.etp_theory.specs.LawNumbers.{IsLaw};
ghost use Rattle.etp_reading.specs.Reading.{line_limit};
ghost use Rattle.etp_reading.specs.Tallies.{HasFirst, Judges, lines_then, unlisted_then};

use crate::refusal::BodyRefusal;

/// The most lines of a body.
const LINE_LIMIT: u32 = 200_000;

/// A law number that isn't listed, and the line that has it.
#[derive(Clone, Copy)]
pub struct Unlisted {
    pub line: u32,
    pub number: u32,
}

/// What is kept of lines as they are read.
#[derive(Clone, Copy)]
pub struct Tally {
    /// Law numbers are from 1 to this one.
    pub count: u32,
    /// How many lines there were; past the limit the number stands still.
    pub lines: u32,
    /// The first line that can't stand in its place.
    pub bad: Option<u32>,
    /// The first law number that isn't listed.
    pub unlisted: Option<Unlisted>,
}

impl Tally {
    /// No line has been read.
    pub fn start(count: u32) -> Tally
        ensures count { result.count ≡ count }
        ensures lines { result.lines ≡ 0 }
        ensures bad { result.bad ≡ None }
        ensures unlisted { result.unlisted ≡ None }
    {
        Tally {
            count,
            lines: 0,
            bad: None,
            unlisted: None,
        }
    }

    /// Whether a line more is counted and not looked at: behind a bad one, and past the limit.
    pub fn only_counts(&self) -> bool
        ensures yes { result ≡ true → self.now.bad ≡ None → line_limit ≤ self.now.lines }
        ensures no { result ≡ false → (self.now.bad ≡ None) × (self.now.lines < line_limit) }
    {
        self.lines >= LINE_LIMIT || self.bad.is_some()
    }

    /// Whether the number is that of a listed law.
    pub fn is_listed(&self, number: u32) -> bool
        ensures { IsTrue result ↔ IsLaw self.now.count number }
    {
        1 <= number && number <= self.count
    }

    /// The first of the numbers that isn't that of a listed law.
    pub fn first_of(&self, numbers: &[u32]) -> Option<u32>
        ensures { HasFirst self.now.count numbers.now result }
    {
        for number in numbers {
            if !self.is_listed(*number) {
                return Some(*number);
            }
        }
        None
    }

    /// Counts a line.
    pub fn count_line(&mut self)
        ensures { self.new ≡ record self.old { lines = lines_then self.old.lines } }
    {
        self.lines = self.lines.min(LINE_LIMIT) + 1;
    }

    /// Counts a line that can't stand in its place.
    pub fn count_bad_line(&mut self)
        ensures { self.new ≡ record self.old {
          lines = lines_then self.old.lines;
          bad = Some (lines_then self.old.lines);
        } }
    {
        self.count_line();
        self.bad = Some(self.lines);
    }

    /// Counts a line whose first law number that isn't listed is this one, or that has none.
    pub fn count_numbers(&mut self, number: Option<u32>)
        requires { self.old.lines < line_limit }
        ensures { self.new ≡ record self.old {
          lines = lines_then self.old.lines;
          unlisted = unlisted_then self.old.unlisted number (self.old.lines + 1);
        } }
    {
        self.count_line();
        if let (None, Some(number)) = (self.unlisted, number) {
            self.unlisted = Some(Unlisted {
                line: self.lines,
                number,
            });
        }
    }

    /// Why the lines are no body, where they are none; `closed` says that they ended in a proper
    /// way, and `complete` that the body may end there.
    pub fn refusal(&self, closed: bool, complete: bool) -> Option<BodyRefusal>
        ensures { Judges self.now closed complete result }
    {
        if let Some(line) = self.bad {
            return Some(BodyRefusal::BadLine { line });
        }
        if self.lines > LINE_LIMIT {
            return Some(BodyRefusal::TooManyLines { line: self.lines });
        }
        if !closed || !complete {
            return Some(BodyRefusal::Unfinished {
                line: self.lines + 1,
            });
        }
        let first = self.unlisted?;
        Some(BodyRefusal::UnknownLaw {
            line: first.line,
            number: first.number,
        })
    }
}
