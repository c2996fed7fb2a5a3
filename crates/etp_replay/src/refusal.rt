ghost use Rattle.std.specs.Prelude.{◌≡◌};
ghost use Rattle.etp_replay.specs.declared.refusal.ReplayRefusal.TheVariants.{NoMemory};

use etp_laws::Numbered;
use std::alloc::AllocError;
use thiserror::Error;

/// Why a proof is refused: the first offence in the order of its lemmas and steps. Lemmas, steps
/// and cites count from 1.
#[derive(Debug, Drop, Error)]
pub enum ReplayRefusal {
    /// The line of the step is that of no earlier lemma.
    #[error("reference lemma {lemma} step {step} line {line}")]
    Reference { lemma: u32, step: u32, line: u32 },
    /// The position isn't in both terms of the step.
    #[error("no place lemma {lemma} step {step}")]
    NoPlace { lemma: u32, step: u32 },
    /// The terms of the step differ outside its position.
    #[error("outside changed lemma {lemma} step {step}")]
    OutsideChanged { lemma: u32, step: u32 },
    /// No substitution takes the sides of the equation to the two subterms.
    #[error("no match lemma {lemma} step {step}")]
    NoMatch { lemma: u32, step: u32 },
    /// All steps are right, and the last lemma concludes another law than the goal.
    #[error("goal differs")]
    GoalDiffers { found: Numbered },
    /// The proof has no cite of the step's number.
    #[error("citation lemma {lemma} step {step} cite {cite}")]
    Citation { lemma: u32, step: u32, cite: u32 },
    /// Want of memory.
    #[error("out of memory")]
    NoMemory,
}

impl From<AllocError> for ReplayRefusal {
    ghost from_gives = { λ _ e. e ≡ NoMemory };

    fn from(_error: AllocError) -> ReplayRefusal {
        ReplayRefusal::NoMemory
    }
}
