ghost use Rattle.std.specs.Prelude.{◌≡◌};
ghost use Rattle.etp_report.specs.declared.refusal.ReportRefusal.TheVariants.{NoMemory};

use std::alloc::AllocError;
use thiserror::Error;

/// Why there is no block.
#[derive(Debug, Drop, Error)]
pub enum ReportRefusal {
    /// The laws aren't the first to the last of at most 200 laws.
    #[error("block {first} {last}")]
    Block { first: u32, last: u32 },
    /// Want of memory.
    #[error("out of memory")]
    NoMemory,
}

impl From<AllocError> for ReportRefusal {
    ghost from_gives = { λ _ e. e ≡ NoMemory };

    fn from(_error: AllocError) -> ReportRefusal {
        ReportRefusal::NoMemory
    }
}
