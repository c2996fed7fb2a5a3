// The finite proof that lines make.
ghost use Rattle.std.specs.Prelude.{◌≡◌, None, IfOk, OnErr};
ghost use Rattle.std.specs.Option.{option_map};
ghost use Rattle.etp_lines.specs.Said.{line_of, proof_line_of};
ghost use Rattle.etp_lines.specs.BodyLines.{proof_line};
ghost use Rattle.etp_finite_lines.specs.FiniteLines.{body};
ghost use Rattle.etp_finite_lines.specs.Said.{finite_line_of};
ghost use Rattle.etp_finite_body.specs.FiniteBodies.{finite_proof_of};
ghost use Rattle.etp_finite_body.specs.Work.{OpensProof, TakesInProof, Takes, IsWhole};

use crate::body::FiniteProof;
use crate::lemmas::{FiniteLemma, FiniteLemmas};
use etp_finite_lines::{CancelLine, FiniteLine};
use etp_lines::{Heading, Line, ProofLine, Version};
use etp_proof::{Lemma, Step, Steps};
use etp_term::{NoMemory, Term};
use std::alloc::{AllocError, Global};

/// A finite proof as far as its lines have been read; none before its first line.
#[derive(Drop)]
pub(crate) struct ProofWork {
    pub proof: Option<FiniteProof>,
}

impl ProofWork {
    /// Takes what the next line says, where that may stand.
    pub(crate) fn take(&mut self, alloc: Global, said: FiniteLine) -> Result<bool, NoMemory>
        ensures ok { IfOk result (Takes self.old.proof (finite_line_of said) self.new.proof) }
        ensures err { OnErr result (self.new ≡ self.old) }
    {
        match &mut self.proof {
            None => Ok(self.open(alloc, said)),
            Some(proof) => proof.take(alloc, said),
        }
    }

    /// Takes the first line.
    fn open(&mut self, alloc: Global, said: FiniteLine) -> bool
        requires { self.old.proof ≡ None }
        ensures { Takes self.old.proof (finite_line_of said) self.new.proof result }
    {
        self.proof = opened(alloc, &said);
        self.proof.is_some()
    }

    /// The proof, where it has a lemma.
    pub(crate) fn into_proof(self) -> Option<FiniteProof>
        ensures { IsWhole self.proof (option_map finite_proof_of result) }
    {
        let proof = self.proof?;
        if proof.lemmas.len() > 0 {
            return Some(proof);
        }
        None
    }
}

/// A proof with its first line, which is to be a heading.
fn opened(alloc: Global, said: &FiniteLine) -> Option<FiniteProof>
    ensures { OpensProof (finite_line_of said.now) result }
{
    match said {
        FiniteLine::Body(said) => opened_by(alloc, said),
        FiniteLine::Cancel(_) => None,
    }
}

fn opened_by(alloc: Global, said: &Line) -> Option<FiniteProof>
    ensures { OpensProof (body (line_of said.now)) result }
{
    match said {
        Line::Proof(said) => opened_as(alloc, said),
        Line::Table(_) | Line::Linear(_) | Line::Matrix(_) | Line::Rules(_) | Line::Claim(_) =>
            None,
    }
}

fn opened_as(alloc: Global, said: &ProofLine) -> Option<FiniteProof>
    ensures { OpensProof (body (proof_line (proof_line_of said.now))) result }
{
    match said {
        ProofLine::Heading(heading) => headed(alloc, heading),
        ProofLine::Cite(_) | ProofLine::Lemma(_) | ProofLine::Step(_) => None,
    }
}

fn headed(alloc: Global, heading: &Heading) -> Option<FiniteProof>
    ensures { OpensProof (body (proof_line (proof_line_of (ProofLine.Heading heading.now)))) result }
{
    match heading.version {
        Version::Plain => Some(FiniteProof {
            hypothesis: heading.hypothesis,
            goal: heading.goal,
            lemmas: FiniteLemmas::empty(alloc),
        }),
        Version::Citing => None,
    }
}

impl FiniteProof {
    /// Takes what the next line says, where that may stand.
    fn take(&mut self, alloc: Global, said: FiniteLine) -> Result<bool, NoMemory>
        ensures ok { IfOk result (TakesInProof self.old (finite_line_of said) self.new) }
        ensures err { OnErr result (self.new ≡ self.old) }
    {
        match said {
            FiniteLine::Body(said) => self.take_line(alloc, said),
            FiniteLine::Cancel(said) => self.take_cancel(said),
        }
    }

    fn take_line(&mut self, alloc: Global, said: Line) -> Result<bool, NoMemory>
        ensures ok { IfOk result (TakesInProof self.old (body (line_of said)) self.new) }
        ensures err { OnErr result (self.new ≡ self.old) }
    {
        match said {
            Line::Proof(said) => self.take_said(alloc, said),
            Line::Table(_) | Line::Linear(_) | Line::Matrix(_) | Line::Rules(_) | Line::Claim(_) =>
                { Ok(false) }
        }
    }

    fn take_said(&mut self, alloc: Global, said: ProofLine) -> Result<bool, NoMemory>
        ensures ok { IfOk result
            (TakesInProof self.old (body (proof_line (proof_line_of said))) self.new) }
        ensures err { OnErr result (self.new ≡ self.old) }
    {
        match said {
            ProofLine::Heading(_) | ProofLine::Cite(_) => Ok(false),
            ProofLine::Lemma(start) => self.take_lemma(alloc, start),
            ProofLine::Step(step) => self.take_step(step),
        }
    }

    fn take_lemma(&mut self, alloc: Global, start: Term) -> Result<bool, NoMemory>
        ensures ok { IfOk result (TakesInProof self.old
            (body (proof_line (proof_line_of (ProofLine.Lemma start)))) self.new) }
        ensures err { OnErr result (self.new ≡ self.old) }
    {
        if self.lemmas.len() == u32::MAX {
            return Err(AllocError);
        }
        self.lemmas.push(FiniteLemma::Steps(Lemma {
            start,
            steps: Steps::empty(alloc),
        }))?;
        Ok(true)
    }

    fn take_step(&mut self, step: Step) -> Result<bool, NoMemory>
        ensures ok { IfOk result (TakesInProof self.old
            (body (proof_line (proof_line_of (ProofLine.Step step)))) self.new) }
        ensures err { OnErr result (self.new ≡ self.old) }
    {
        if step.cited {
            return Ok(false);
        }
        if !self.lemmas.ends_in_steps() {
            return Ok(false);
        }
        self.lemmas.push_step(step)?;
        Ok(true)
    }

    fn take_cancel(&mut self, said: CancelLine) -> Result<bool, NoMemory>
        ensures ok { IfOk result (TakesInProof self.old
            (finite_line_of (FiniteLine.Cancel said)) self.new) }
        ensures err { OnErr result (self.new ≡ self.old) }
    {
        if self.lemmas.len() == u32::MAX {
            return Err(AllocError);
        }
        self.lemmas.push(FiniteLemma::Cancel {
            line: said.line,
            variable: said.variable,
            outer: said.outer,
            inner: said.inner,
        })?;
        Ok(true)
    }
}
