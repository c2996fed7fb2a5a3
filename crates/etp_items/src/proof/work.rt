// The proof that lines make.
ghost use Rattle.std.specs.Prelude.{◌≡◌, IfOk, OnErr};
ghost use Rattle.std.specs.Option.{option_map};
ghost use Rattle.etp_items.specs.Bodies.{body_of};
ghost use Rattle.etp_lines.specs.ProofLines.{may_step};
ghost use Rattle.etp_lines.specs.Said.{version_of, proof_line_of};
ghost use Rattle.etp_items.specs.Work.{OpensProof, TakesInProof, IsWhole};
ghost use Rattle.etp_items.specs.declared.work.Work.TheVariants as Works;

use crate::body::Body;
use etp_lines::{ProofLine, Version};
use etp_proof::{Cites, Label, Lemma, Lemmas, Proof, Step, Steps};
use etp_term::{NoMemory, Term};
use std::alloc::{AllocError, Global};

/// The most cites of a proof.
const CITE_LIMIT: u32 = 64;

/// A proof as far as its lines have been read.
#[derive(Drop)]
pub(crate) struct ProofWork {
    pub version: Version,
    pub proof: Proof,
}

impl ProofWork {
    /// A proof with its first line, which is to be a heading.
    pub(crate) fn open(alloc: Global, said: ProofLine) -> Option<ProofWork>
        ensures { OpensProof (proof_line_of said) result }
    {
        match said {
            ProofLine::Heading(heading) => Some(ProofWork {
                version: heading.version,
                proof: Proof {
                    hypothesis: heading.hypothesis,
                    goal: heading.goal,
                    cites: Cites::empty(alloc),
                    lemmas: Lemmas::empty(alloc),
                },
            }),
            ProofLine::Cite(_) | ProofLine::Lemma(_) | ProofLine::Step(_) => None,
        }
    }

    /// Takes what the next line says, where that may stand.
    pub(crate) fn take(&mut self, alloc: Global, said: ProofLine) -> Result<bool, NoMemory>
        ensures ok { IfOk result (TakesInProof self.old (proof_line_of said) self.new) }
        ensures err { OnErr result (self.new ≡ self.old) }
    {
        match said {
            ProofLine::Heading(_) => Ok(false),
            ProofLine::Cite(name) => self.take_cite(name),
            ProofLine::Lemma(start) => self.take_lemma(alloc, start),
            ProofLine::Step(step) => self.take_step(step),
        }
    }

    fn take_cite(&mut self, name: Label) -> Result<bool, NoMemory>
        ensures ok { IfOk result (TakesInProof self.old
            (proof_line_of (ProofLine.Cite name)) self.new) }
        ensures err { OnErr result (self.new ≡ self.old) }
    {
        if self.version != Version::Citing || self.proof.lemmas.len() > 0 {
            return Ok(false);
        }
        if self.proof.cites.len() >= CITE_LIMIT {
            return Ok(false);
        }
        self.proof.cites.push(name)?;
        Ok(true)
    }

    fn take_lemma(&mut self, alloc: Global, start: Term) -> Result<bool, NoMemory>
        ensures ok { IfOk result (TakesInProof self.old
            (proof_line_of (ProofLine.Lemma start)) self.new) }
        ensures err { OnErr result (self.new ≡ self.old) }
    {
        if self.proof.lemmas.len() == u32::MAX {
            return Err(AllocError);
        }
        self.proof.lemmas.push(Lemma {
            start,
            steps: Steps::empty(alloc),
        })?;
        Ok(true)
    }

    fn take_step(&mut self, step: Step) -> Result<bool, NoMemory>
        ensures ok { IfOk result (TakesInProof self.old
            (proof_line_of (ProofLine.Step step)) self.new) }
        ensures err { OnErr result (self.new ≡ self.old) }
    {
        if self.proof.lemmas.len() == 0 {
            return Ok(false);
        }
        if !may_step(self.version, step.cited) {
            return Ok(false);
        }
        self.proof.lemmas.push_step(step)?;
        Ok(true)
    }

    /// The body, where it has a lemma.
    pub(crate) fn into_body(self) -> Option<Body>
        ensures { IsWhole (Works.Proof self) (option_map body_of result) }
    {
        if self.proof.lemmas.len() > 0 {
            return Some(Body::Proof(self.proof));
        }
        None
    }
}

/// Whether a proof of this version has steps by a cite, or by no cite.
fn may_step(version: Version, cited: bool) -> bool
    ensures { result ≡ may_step (version_of version) cited }
{
    match version {
        Version::Plain => !cited,
        Version::Citing => true,
    }
}
