ghost use Rattle.std.specs.Prelude.{◌≡◌};
ghost use Rattle.etp_sweep.specs.declared.refusal.SweepRefusal.TheVariants.{NoMemory};

use std::alloc::AllocError;
use thiserror::Error;

/// Why a table has no profile.
#[derive(Debug, Drop, Error)]
pub enum SweepRefusal {
    /// The table has a greater size than all laws can be tried at.
    #[error("profile size {size}")]
    ProfileSize { size: u8 },
    /// Want of memory.
    #[error("out of memory")]
    NoMemory,
}

impl From<AllocError> for SweepRefusal {
    ghost from_gives = { λ _ e. e ≡ NoMemory };

    fn from(_error: AllocError) -> SweepRefusal {
        SweepRefusal::NoMemory
    }
}
