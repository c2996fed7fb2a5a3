// A body as far as its lines have been read.
ghost use Rattle.std.specs.Prelude.{◌≡◌, IfOk, OnErr};
ghost use Rattle.std.specs.Option.{option_map};
ghost use Rattle.etp_items.specs.Bodies.{body_of};
ghost use Rattle.etp_lines.specs.BodyLines.{proof_line, BeginsNoProof};
ghost use Rattle.etp_lines.specs.Said.{line_of, proof_line_of};
ghost use Rattle.etp_items.specs.Work.{Takes, IsWhole};

use crate::body::Body;
use crate::magma::MagmaWork;
use crate::model::ModelWork;
use crate::proof::work::ProofWork;
use etp_lines::{Line, ProofLine};
use etp_term::NoMemory;
use std::alloc::Global;

/// A body as far as its lines have been read.
#[derive(Drop)]
pub(crate) enum Work {
    /// No line has been read but blank ones.
    Opening,
    Proof(ProofWork),
    Model(ModelWork),
}

impl Work {
    /// Takes what the next line says, where that may stand.
    pub(crate) fn take(&mut self, alloc: Global, said: Line) -> Result<bool, NoMemory>
        ensures ok { IfOk result (Takes self.old (line_of said) self.new) }
        ensures err { OnErr result (self.new ≡ self.old) }
    {
        match self {
            Work::Opening => Ok(self.open(alloc, said)),
            Work::Proof(work) => match said {
                Line::Proof(said) => work.take(alloc, said),
                Line::Table(_)
                | Line::Linear(_)
                | Line::Matrix(_)
                | Line::Rules(_)
                | Line::Claim(_) => Ok(false),
            },
            Work::Model(work) => work.take(alloc, said),
        }
    }

    /// Takes the first line.
    fn open(&mut self, alloc: Global, said: Line) -> bool
        requires { self.old ≡ Work.Opening }
        ensures { Takes self.old (line_of said) self.new result }
    {
        match said {
            Line::Proof(said) => self.open_proof(alloc, said),
            Line::Table(_) | Line::Linear(_) | Line::Matrix(_) | Line::Rules(_) => {
                self.open_magma(alloc, said)
            }
            Line::Claim(_) => false,
        }
    }

    fn open_proof(&mut self, alloc: Global, said: ProofLine) -> bool
        requires { self.old ≡ Work.Opening }
        ensures { Takes self.old (proof_line (proof_line_of said)) self.new result }
    {
        match ProofWork::open(alloc, said) {
            Some(work) => {
                *self = Work::Proof(work);
                true
            }
            None => false,
        }
    }

    fn open_magma(&mut self, alloc: Global, said: Line) -> bool
        requires opening { self.old ≡ Work.Opening }
        requires magma { BeginsNoProof (line_of said) }
        ensures { Takes self.old (line_of said) self.new result }
    {
        match MagmaWork::open(alloc, said) {
            Some(magma) => {
                *self = Work::Model(ModelWork {
                    magma,
                    claims: None,
                });
                true
            }
            None => false,
        }
    }

    /// The body, where it is complete.
    pub(crate) fn into_body(self) -> Option<Body>
        ensures { IsWhole self (option_map body_of result) }
    {
        match self {
            Work::Opening => None,
            Work::Proof(work) => work.into_body(),
            Work::Model(work) => work.into_body(),
        }
    }
}
