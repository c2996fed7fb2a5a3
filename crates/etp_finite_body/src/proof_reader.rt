// The reader of finite proofs.
ghost use Rattle.std.specs.Prelude.{◌≡◌, ◌≤◌, ◌++◌, ◌∷◌, [], List, ℕ, length, IfOk, IfErr, OnOk, OnErr, IfSome};
ghost use Rattle.etp_io.specs.Texts.{LineText, whole};
ghost use Rattle.etp_words.specs.Words.{IsBlankLine};
ghost use Rattle.etp_reading.specs.Reading as Lines;
ghost use Rattle.etp_reading.specs.Reading.{given_text};
ghost use Rattle.etp_finite_lines.specs.FiniteLines.{finite_proofs};
ghost use Rattle.etp_finite_body.specs.FiniteBodies.{finite_proof_of};
ghost use Rattle.etp_finite_body.specs.Reading.{IsReadProof};
ghost use Rattle.etp_finite_body.specs.Work.{GoesNext, HasReadProof};

use crate::body::FiniteProof;
use crate::work::ProofWork;
use etp_finite_lines::read_finite_line;
use etp_lines::is_blank_line;
use etp_reading::{BodyRefusal, Tally};
use etp_term::NoMemory;
use std::alloc::Global;

/// What a line was.
#[derive(Clone, Copy)]
enum Next {
    Blank,
    /// It can't stand in its place.
    Bad,
    /// It was taken; its first law number that isn't listed, if any.
    Taken(Option<u32>),
}

/// Reads a finite proof line by line.
#[derive(Drop)]
pub(crate) struct ProofReader {
    pub(crate) tally: Tally,
    work: ProofWork,
    alloc: Global,
}

impl ProofReader {
    pub(crate) fn start(alloc: Global, count: u32) -> ProofReader
        ensures read { HasReadProof result [] }
        ensures count { result.tally.count ≡ count }
    {
        ProofReader {
            tally: Tally::start(count),
            work: ProofWork { proof: None },
            alloc,
        }
    }

    /// Reads the next line; None is one of more than 4096 bytes.
    pub(crate) fn push(&mut self, line: Option<&[u8]>) -> Result<(), NoMemory>
        requires { IfSome line (λ bytes. length bytes.now ≤ 4096) }
        ensures ok { OnOk result ((lines : List LineText) → HasReadProof self.old lines
            → HasReadProof self.new (lines ++ given_text line.entry ∷ [])) }
        ensures count { OnOk result (self.new.tally.count ≡ self.old.tally.count) }
        ensures err { OnErr result (self.new ≡ self.old) }
    {
        if self.tally.only_counts() {
            self.tally.count_line();
            return Ok(());
        }
        match self.take(line)? {
            Next::Blank => self.tally.count_line(),
            Next::Bad => self.tally.count_bad_line(),
            Next::Taken(number) => self.tally.count_numbers(number),
        }
        Ok(())
    }

    /// Reads a blank line.
    pub(crate) fn push_blank(&mut self)
        ensures read { (lines : List LineText) (bytes : List ℕ) → HasReadProof self.old lines
            → IsBlankLine bytes → HasReadProof self.new (lines ++ whole bytes ∷ []) }
        ensures count { self.new.tally.count ≡ self.old.tally.count }
    {
        self.tally.count_line();
    }

    /// Takes a line, where it may stand.
    fn take(&mut self, line: Option<&[u8]>) -> Result<Next, NoMemory>
        requires { IfSome line (λ bytes. length bytes.now ≤ 4096) }
        ensures next { IfOk result (GoesNext self.old.tally.count self.old.work.proof
            self.new.work.proof (given_text line.entry)) }
        ensures tally { OnOk result (self.new.tally ≡ self.old.tally) }
        ensures err { OnErr result (self.new ≡ self.old) }
    {
        let Some(line) = line else {
            return Ok(Next::Bad);
        };
        if is_blank_line(line) {
            return Ok(Next::Blank);
        }
        let Some(said) = read_finite_line(self.alloc, line)? else {
            return Ok(Next::Bad);
        };
        let number = said.first_unlisted(&self.tally);
        if !self.work.take(self.alloc, said)? {
            return Ok(Next::Bad);
        }
        Ok(Next::Taken(number))
    }

    /// The proof that the lines are. `closed` says that they ended in a proper way.
    pub(crate) fn finish(self, closed: bool) -> Result<FiniteProof, BodyRefusal>
        ensures ok { IfOk result (λ proof. (lines : List LineText) → HasReadProof self lines
            → IsReadProof self.tally.count lines closed (finite_proof_of proof)) }
        ensures err { IfErr result (λ refusal. (lines : List LineText) → HasReadProof self lines
            → Lines.Refuses finite_proofs self.tally.count lines closed refusal) }
    {
        let proof = self.work.into_proof();
        match self.tally.refusal(closed, proof.is_some()) {
            Some(refusal) => Err(refusal),
            None => Ok(proof.unwrap()),
        }
    }
}
