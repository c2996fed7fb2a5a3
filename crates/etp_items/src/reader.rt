// The reader of bodies.
ghost use Rattle.std.specs.Prelude.{◌≡◌, ◌≤◌, ◌++◌, ◌∷◌, [], List, length, IfOk, IfErr, OnOk, OnErr, IfSome};
ghost use Rattle.etp_io.specs.Texts.{LineText};
ghost use Rattle.etp_reading.specs.Reading.{given_text};
ghost use Rattle.etp_items.specs.Bodies.{body_of};
ghost use Rattle.etp_items.specs.Reading.{IsReadBody, Refuses};
ghost use Rattle.etp_items.specs.Work.{GoesNext, HasRead};

use crate::body::Body;
use crate::work::Work;
use etp_lines::{is_blank_line, read_line};
use etp_reading::{BodyRefusal, Tally};
use etp_term::NoMemory;
use std::alloc::Global;

/// What a line was.
#[derive(Clone, Copy)]
enum Next {
    Blank,
    /// It can't stand in its place.
    Bad,
    /// It was taken; its first law number that isn't listed, if any.
    Taken(Option<u32>),
}

/// Reads a body line by line. A line is kept as what it says, and of lines that aren't a body the
/// first fault alone.
#[derive(Drop)]
pub struct BodyReader {
    tally: Tally,
    work: Work,
    alloc: Global,
}

impl BodyReader {
    /// A reader of bodies whose law numbers are from 1 to `count`.
    pub fn start(alloc: Global, count: u32) -> Result<BodyReader, NoMemory>
        ensures read { IfOk result (λ reader. HasRead reader []) }
        ensures count { IfOk result (λ reader. reader.tally.count ≡ count) }
    {
        Ok(BodyReader {
            tally: Tally::start(count),
            work: Work::Opening,
            alloc,
        })
    }

    /// Reads the next line; None is one of more than 4096 bytes. A line that can't stand is no
    /// error here: `finish` tells the first one.
    pub fn push(&mut self, line: Option<&[u8]>) -> Result<(), NoMemory>
        requires { IfSome line (λ bytes. length bytes.now ≤ 4096) }
        ensures ok { OnOk result ((lines : List LineText) → HasRead self.old lines
            → HasRead self.new (lines ++ given_text line.entry ∷ [])) }
        ensures count { OnOk result (self.new.tally.count ≡ self.old.tally.count) }
        ensures err { OnErr result (self.new ≡ self.old) }
    {
        if self.tally.only_counts() {
            self.tally.count_line();
            return Ok(());
        }
        match self.take(line)? {
            Next::Blank => self.tally.count_line(),
            Next::Bad => self.tally.count_bad_line(),
            Next::Taken(number) => self.tally.count_numbers(number),
        }
        Ok(())
    }

    /// Takes a line, where it may stand.
    fn take(&mut self, line: Option<&[u8]>) -> Result<Next, NoMemory>
        requires { IfSome line (λ bytes. length bytes.now ≤ 4096) }
        ensures next { IfOk result (GoesNext self.old.tally.count self.old.work self.new.work
            (given_text line.entry)) }
        ensures tally { OnOk result (self.new.tally ≡ self.old.tally) }
        ensures err { OnErr result (self.new ≡ self.old) }
    {
        let Some(line) = line else {
            return Ok(Next::Bad);
        };
        if is_blank_line(line) {
            return Ok(Next::Blank);
        }
        let Some(said) = read_line(self.alloc, line)? else {
            return Ok(Next::Bad);
        };
        let number = said.first_unlisted(&self.tally);
        if !self.work.take(self.alloc, said)? {
            return Ok(Next::Bad);
        }
        Ok(Next::Taken(number))
    }

    /// The body that the lines are. `closed` says that they ended in a proper way.
    pub fn finish(self, closed: bool) -> Result<Body, BodyRefusal>
        ensures ok { IfOk result (λ body. (lines : List LineText) → HasRead self lines
            → IsReadBody self.tally.count lines closed (body_of body)) }
        ensures err { IfErr result (λ refusal. (lines : List LineText) → HasRead self lines
            → Refuses self.tally.count lines closed refusal) }
    {
        let body = self.work.into_body();
        match self.tally.refusal(closed, body.is_some()) {
            Some(refusal) => Err(refusal),
            None => Ok(body.unwrap()),
        }
    }
}
