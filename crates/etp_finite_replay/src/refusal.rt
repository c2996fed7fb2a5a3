ghost use Rattle.std.specs.Prelude.{◌≡◌, ◌≢◌, ◌⊎◌};
ghost use Rattle.etp_finite_replay.specs.declared.refusal.FiniteReplayRefusal.TheVariants.{NoMemory};

use etp_replay::ReplayRefusal;
use std::alloc::AllocError;
use thiserror::Error;

/// Why a proof for finite magmas is refused: the first offence in the order of its lemmas.
#[derive(Debug, Drop, Error)]
pub enum FiniteReplayRefusal {
    /// A wrong step, a line that cancels and names no earlier lemma, which is step 0 of its own, or
    /// another goal; it is never want of memory.
    #[error("the proof isn't valid")]
    Replay(ReplayRefusal),
    /// The equation that the line names isn't of its form.
    #[error("cancel differs lemma {lemma}")]
    CancelDiffers { lemma: u32 },
    /// Want of memory.
    #[error("out of memory")]
    NoMemory,
}

impl From<AllocError> for FiniteReplayRefusal {
    ghost from_gives = { λ _ e. e ≡ NoMemory };

    fn from(_error: AllocError) -> FiniteReplayRefusal {
        FiniteReplayRefusal::NoMemory
    }
}

impl FiniteReplayRefusal {
    // Want of memory is always the outermost refusal.
    pub(crate) fn of(refusal: ReplayRefusal) -> FiniteReplayRefusal
        ensures { ((result ≡ FiniteReplayRefusal.NoMemory) × (refusal ≡ ReplayRefusal.NoMemory))
            ⊎ ((result ≡ FiniteReplayRefusal.Replay refusal)
            × (refusal ≢ ReplayRefusal.NoMemory)) }
    {
        match refusal {
            ReplayRefusal::NoMemory => FiniteReplayRefusal::NoMemory,
            offence => FiniteReplayRefusal::Replay(offence),
        }
    }
}
