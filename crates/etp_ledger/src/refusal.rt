ghost use Rattle.std.specs.Prelude.{◌≡◌, ◌≢◌, ◌⊎◌};
ghost use Rattle.etp_ledger.specs.declared.refusal.LedgerRefusal.TheVariants.{NoMemory};

use etp_check::CheckRefusal;
use std::alloc::{AllocError, AllocFailed};
use thiserror::Error;

/// Why a call of the ledger is refused. Cites count from 1, places of files from 0.
#[derive(Debug, Drop, Error)]
pub enum LedgerRefusal {
    /// A file of the name stands.
    #[error("name taken")]
    NameTaken,
    /// No file of the name stands.
    #[error("no such name")]
    NoSuchName,
    /// The body isn't valid; the refusal that it holds is never want of memory.
    #[error("the body isn't valid")]
    Check(CheckRefusal),
    /// No law of the list has the number.
    #[error("unknown law {number}")]
    UnknownLaw { number: u32 },
    /// The file at this place, the first of such files, cites the name.
    #[error("cited by file {by}")]
    Cited { by: u32 },
    /// The name of this cite doesn't stand.
    #[error("cite missing {cite}")]
    CiteMissing { cite: u32 },
    /// The name of this cite stands, and not for a proof from the same hypothesis.
    #[error("cite other {cite}")]
    CiteOther { cite: u32 },
    /// Want of memory.
    #[error("out of memory")]
    NoMemory,
}

impl LedgerRefusal {
    // Want of memory is always the outermost refusal.
    pub(crate) fn of(refusal: CheckRefusal) -> LedgerRefusal
        ensures { ((result ≡ LedgerRefusal.NoMemory) × (refusal ≡ CheckRefusal.NoMemory)) ⊎ ((result ≡ LedgerRefusal.Check refusal) × (refusal ≢ CheckRefusal.NoMemory)) }
    {
        match refusal {
            CheckRefusal::NoMemory => LedgerRefusal::NoMemory,
            offence => LedgerRefusal::Check(offence),
        }
    }
}

impl From<AllocError> for LedgerRefusal {
    ghost from_gives = { λ _ e. e ≡ NoMemory };

    fn from(_error: AllocError) -> LedgerRefusal {
        LedgerRefusal::NoMemory
    }
}

impl<T: Drop> From<AllocFailed<T>> for LedgerRefusal {
    ghost from_gives = { λ _ e. e ≡ NoMemory };

    fn from(_error: AllocFailed<T>) -> LedgerRefusal {
        LedgerRefusal::NoMemory
    }
}
