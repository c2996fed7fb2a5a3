ghost use Rattle.std.specs.Prelude.{◌≡◌, ◌≢◌, ◌⊎◌};
ghost use Rattle.etp_finite_check.specs.declared.refusal.FiniteRefusal.TheVariants.{NoMemory};
ghost use Rattle.etp_finite_check.specs.FiniteRefusals.{replay_refused};

use etp_finite_replay::FiniteReplayRefusal;
use etp_linear::LinearRefusal;
use etp_replay::ReplayRefusal;
use etp_table::TableRefusal;
use std::alloc::AllocError;
use thiserror::Error;

/// Why the ledger of finite magmas refuses.
#[derive(Debug, Drop, Error)]
pub enum FiniteRefusal {
    /// A file of the name stands.
    #[error("name taken")]
    NameTaken,
    /// No file of the name stands.
    #[error("no such name")]
    NoSuchName,
    /// The first offence of a proof, where a line that cancels is step 0 of its lemma; it is never
    /// want of memory.
    #[error("the proof isn't valid")]
    Replay(ReplayRefusal),
    /// The number is that of no listed law.
    #[error("unknown law {number}")]
    UnknownLaw { number: u32 },
    /// The first offence of a table and its claims; it is never want of memory.
    #[error("the table isn't valid")]
    Table(TableRefusal),
    /// The first offence of a linear magma and its claims.
    #[error("the linear magma isn't valid")]
    Linear(LinearRefusal),
    /// The equation that a line names isn't of the form that it cancels.
    #[error("cancel differs lemma {lemma}")]
    CancelDiffers { lemma: u32 },
    /// Want of memory.
    #[error("out of memory")]
    NoMemory,
}

impl From<AllocError> for FiniteRefusal {
    ghost from_gives = { λ _ e. e ≡ NoMemory };

    fn from(_error: AllocError) -> FiniteRefusal {
        FiniteRefusal::NoMemory
    }
}

impl FiniteRefusal {
    pub(crate) fn of(refusal: FiniteReplayRefusal) -> FiniteRefusal
        ensures { result ≡ replay_refused refusal }
    {
        match refusal {
            FiniteReplayRefusal::Replay(offence) => FiniteRefusal::Replay(offence),
            FiniteReplayRefusal::CancelDiffers { lemma } => FiniteRefusal::CancelDiffers { lemma },
            FiniteReplayRefusal::NoMemory => FiniteRefusal::NoMemory,
        }
    }

    // Want of memory is always the outermost refusal.
    pub(crate) fn of_table(refusal: TableRefusal) -> FiniteRefusal
        ensures { ((result ≡ FiniteRefusal.NoMemory) × (refusal ≡ TableRefusal.NoMemory))
            ⊎ ((result ≡ FiniteRefusal.Table refusal) × (refusal ≢ TableRefusal.NoMemory)) }
    {
        match refusal {
            TableRefusal::NoMemory => FiniteRefusal::NoMemory,
            offence => FiniteRefusal::Table(offence),
        }
    }
}
