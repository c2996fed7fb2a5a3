// A magma as far as its lines have been read: a case for each kind of magma.
ghost use Rattle.std.specs.Prelude.{◌≡◌, IfOk, OnErr};
ghost use Rattle.etp_items.specs.Bodies.{model, body_of, claims_of};
ghost use Rattle.etp_lines.specs.Said.{line_of};
ghost use Rattle.etp_items.specs.Work as Works;
ghost use Rattle.etp_items.specs.Work.{OpensHead, TakesInHead, told_by};

use crate::body::{Body, Claims, LinearBody, MatrixBody, RulesBody, TableBody};
use crate::matrix::work::MatrixWork;
use crate::rules::work::RulesWork;
use crate::table::work::TableWork;
use etp_lines::{Line, LinearLine};
use etp_term::NoMemory;
use std::alloc::Global;

/// A magma as far as its lines have been read.
#[derive(Drop)]
pub(crate) enum MagmaWork {
    Table(TableWork),
    /// One line tells a linear magma.
    Linear(LinearLine),
    Matrix(MatrixWork),
    Rules(RulesWork),
}

impl MagmaWork {
    /// A magma with its first line.
    pub(crate) fn open(alloc: Global, said: Line) -> Option<MagmaWork>
        ensures { OpensHead (line_of said) result }
    {
        match said {
            Line::Table(said) => {
                let work = TableWork::open(alloc, said)?;
                Some(MagmaWork::Table(work))
            }
            Line::Linear(said) => Some(MagmaWork::Linear(said)),
            Line::Matrix(said) => {
                let work = MatrixWork::open(alloc, said)?;
                Some(MagmaWork::Matrix(work))
            }
            Line::Rules(said) => {
                let work = RulesWork::open(alloc, said)?;
                Some(MagmaWork::Rules(work))
            }
            Line::Proof(_) | Line::Claim(_) => None,
        }
    }

    /// Takes what the next line says, where that tells more of the magma and may stand.
    pub(crate) fn take(&mut self, said: Line) -> Result<bool, NoMemory>
        ensures ok { IfOk result (TakesInHead self.old (line_of said) self.new) }
        ensures err { OnErr result (self.new ≡ self.old) }
    {
        match self {
            MagmaWork::Table(work) => match said {
                Line::Table(said) => work.take(said),
                Line::Proof(_)
                | Line::Linear(_)
                | Line::Matrix(_)
                | Line::Rules(_)
                | Line::Claim(_) => Ok(false),
            },
            MagmaWork::Linear(_) => Ok(false),
            MagmaWork::Matrix(work) => match said {
                Line::Matrix(said) => work.take(said),
                Line::Proof(_)
                | Line::Table(_)
                | Line::Linear(_)
                | Line::Rules(_)
                | Line::Claim(_) => Ok(false),
            },
            MagmaWork::Rules(work) => match said {
                Line::Rules(said) => work.take(said),
                Line::Proof(_)
                | Line::Table(_)
                | Line::Linear(_)
                | Line::Matrix(_)
                | Line::Claim(_) => Ok(false),
            },
        }
    }

    /// Whether the magma is told.
    pub(crate) fn is_told(&self) -> bool
        ensures { result ≡ Works.is_told_by self.now }
    {
        match self {
            MagmaWork::Table(work) => work.has_all_rows(),
            MagmaWork::Linear(_) => true,
            MagmaWork::Matrix(work) => work.has_all_rows(),
            MagmaWork::Rules(work) => work.has_rule(),
        }
    }

    /// The body of this magma and these claims.
    pub(crate) fn into_body(self, claims: Claims) -> Body
        ensures { body_of result ≡ model (told_by self) (claims_of claims) }
    {
        match self {
            MagmaWork::Table(work) => Body::Table(TableBody {
                size: work.size,
                entries: work.entries,
                claims,
            }),
            MagmaWork::Linear(line) => Body::Linear(LinearBody {
                ring: line.ring,
                a: line.a,
                b: line.b,
                c: line.c,
                claims,
            }),
            MagmaWork::Matrix(work) => Body::Matrix(MatrixBody {
                modulus: work.modulus,
                size: work.size,
                a: work.a,
                b: work.b,
                c: work.c,
                claims,
            }),
            MagmaWork::Rules(work) => Body::Rules(RulesBody {
                weight: work.weight.unwrap_or([0; 3]),
                rules: work.rules,
                claims,
            }),
        }
    }
}
