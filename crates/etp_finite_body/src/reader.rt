// The reader of bodies about finite magmas.
ghost use Rattle.std.specs.Prelude.{◌≤◌, ◌++◌, ◌∷◌, [], List, ℕ, length, IfOk, IfErr, OnOk, OnErr, IfSome, ◌≡◌};
ghost use Rattle.etp_io.specs.Texts.{LineText};
ghost use Rattle.etp_reading.specs.Reading.{given_text};
ghost use Rattle.etp_finite_body.specs.FiniteBodies.{finite_body_of};
ghost use Rattle.etp_finite_body.specs.Reading.{IsReadFiniteBody, FiniteRefuses};
ghost use Rattle.etp_finite_body.specs.Work.{ReadsModel, ReadsProof, HasReadFinite};

use crate::body::FiniteBody;
use crate::first::{First, begun};
use crate::proof_reader::ProofReader;
use crate::refusal::FiniteBodyRefusal;
use etp_items::{Body, BodyReader};
use etp_term::NoMemory;
use std::alloc::Global;

/// Reads a body about finite magmas line by line. A table and a linear magma are read as in any
/// body, and what isn't begun as one of them is read as a proof.
#[derive(Drop)]
pub struct FiniteReader {
    first: First,
    models: BodyReader,
    proofs: ProofReader,
}

impl FiniteReader {
    /// A reader of bodies whose law numbers are from 1 to `count`.
    pub fn start(alloc: Global, count: u32) -> Result<FiniteReader, NoMemory>
        ensures { IfOk result (λ reader. HasReadFinite count reader []) }
    {
        Ok(FiniteReader {
            first: First::Blank,
            models: BodyReader::start(alloc, count)?,
            proofs: ProofReader::start(alloc, count),
        })
    }

    /// Reads the next line; None is one of more than 4096 bytes. A line that can't stand is no
    /// error here: `finish` tells the first one.
    pub fn push(&mut self, line: Option<&[u8]>) -> Result<(), NoMemory>
        requires { IfSome line (λ bytes. length bytes.now ≤ 4096) }
        ensures ok { OnOk result ((count : ℕ) (lines : List LineText)
            → HasReadFinite count self.old lines
            → HasReadFinite count self.new (lines ++ given_text line.entry ∷ [])) }
        ensures err { OnErr result (self.new ≡ self.old) }
    {
        match self.first {
            First::Blank => self.push_first(line),
            First::Infinite => Ok(()),
            First::Model => self.models.push(line),
            First::Proof => self.proofs.push(line),
        }
    }

    /// Reads a line behind blank ones.
    fn push_first(&mut self, line: Option<&[u8]>) -> Result<(), NoMemory>
        requires blank { self.old.first ≡ First.Blank }
        requires short { IfSome line (λ bytes. length bytes.now ≤ 4096) }
        ensures ok { OnOk result ((count : ℕ) (lines : List LineText)
            → HasReadFinite count self.old lines
            → HasReadFinite count self.new (lines ++ given_text line.entry ∷ [])) }
        ensures err { OnErr result (self.new ≡ self.old) }
    {
        match begun(line) {
            First::Blank => {
                self.models.push(line)?;
                self.proofs.push_blank();
                Ok(())
            }
            First::Infinite => {
                self.first = First::Infinite;
                Ok(())
            }
            First::Model => {
                self.models.push(line)?;
                self.first = First::Model;
                Ok(())
            }
            First::Proof => {
                self.proofs.push(line)?;
                self.first = First::Proof;
                Ok(())
            }
        }
    }

    /// The body that the lines are. `closed` says that they ended in a proper way.
    pub fn finish(self, closed: bool) -> Result<FiniteBody, FiniteBodyRefusal>
        ensures ok { IfOk result (λ body. (count : ℕ) (lines : List LineText)
            → HasReadFinite count self lines
            → IsReadFiniteBody count lines closed (finite_body_of body)) }
        ensures err { IfErr result (λ refusal. (count : ℕ) (lines : List LineText)
            → HasReadFinite count self lines → FiniteRefuses count lines closed refusal) }
    {
        match self.first {
            First::Blank => finish_proof(self.proofs, closed),
            First::Infinite => Err(FiniteBodyRefusal::Infinite),
            First::Model => finish_model(self.models, closed),
            First::Proof => finish_proof(self.proofs, closed),
        }
    }
}

/// The table or the linear magma that lines are that begin one.
fn finish_model(models: BodyReader, closed: bool) -> Result<FiniteBody, FiniteBodyRefusal>
    ensures ok { IfOk result (λ body. (lines : List LineText) → ReadsModel models lines
        → IsReadFiniteBody models.tally.count lines closed (finite_body_of body)) }
    ensures err { IfErr result (λ refusal. (lines : List LineText) → ReadsModel models lines
        → FiniteRefuses models.tally.count lines closed refusal) }
{
    match models.finish(closed) {
        Ok(Body::Table(table)) => Ok(FiniteBody::Table(table)),
        Ok(Body::Linear(linear)) => Ok(FiniteBody::Linear(linear)),
        Ok(Body::Proof(_)) => Err(FiniteBodyRefusal::Infinite),
        Ok(Body::Matrix(_)) => Err(FiniteBodyRefusal::Infinite),
        Ok(Body::Rules(_)) => Err(FiniteBodyRefusal::Infinite),
        Err(refusal) => Err(FiniteBodyRefusal::Body(refusal)),
    }
}

/// The proof that lines are that begin no magma.
fn finish_proof(proofs: ProofReader, closed: bool) -> Result<FiniteBody, FiniteBodyRefusal>
    ensures ok { IfOk result (λ body. (lines : List LineText) → ReadsProof proofs lines
        → IsReadFiniteBody proofs.tally.count lines closed (finite_body_of body)) }
    ensures err { IfErr result (λ refusal. (lines : List LineText) → ReadsProof proofs lines
        → FiniteRefuses proofs.tally.count lines closed refusal) }
{
    match proofs.finish(closed) {
        Ok(proof) => Ok(FiniteBody::Proof(proof)),
        Err(refusal) => Err(FiniteBodyRefusal::Body(refusal)),
    }
}
