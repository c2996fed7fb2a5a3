// Why a rule system isn't convergent.
ghost use Rattle.std.specs.Prelude.{◌≡◌};
ghost use Rattle.etp_pairs.specs.declared.refusal.PairsRefusal.TheVariants.{NoMemory};

use etp_term::{Position, Term};
use std::alloc::AllocError;
use std::fmt;
use thiserror::Error;

/// The first overlap that fails, in the order of the outer rule, then the position (the root, then
/// those in the left part, then those in the right part), then the inner rule. Rules are numbered
/// from 1.
#[derive(Drop, Error)]
pub enum PairsRefusal {
    /// The two results of the critical pair have two normal forms.
    #[error("rules {outer} and {inner} have an unjoinable pair")]
    Unjoinable {
        outer: u32,
        position: Position,
        inner: u32,
        left_form: Term,
        right_form: Term,
    },
    /// The walk of the left result, else that of the right one, comes to a term of more than 512
    /// leaves.
    #[error("rules {outer} and {inner} have a pair that passes the term limit")]
    TermLimit {
        outer: u32,
        position: Position,
        inner: u32,
    },
    /// The walk of the left result, else that of the right one, has more than 100000 steps.
    #[error("rules {outer} and {inner} have a pair that passes the step limit")]
    StepLimit {
        outer: u32,
        position: Position,
        inner: u32,
    },
    /// Want of memory.
    #[error("out of memory")]
    NoMemory,
}

impl fmt::Debug for PairsRefusal {
    fn fmt<W: fmt::Write>(&self, f: &mut fmt::Formatter<W>) -> fmt::Result {
        fmt::Display::fmt(self, f)
    }
}

impl From<AllocError> for PairsRefusal {
    ghost from_gives = { λ _ e. e ≡ NoMemory };

    fn from(_error: AllocError) -> PairsRefusal {
        PairsRefusal::NoMemory
    }
}
