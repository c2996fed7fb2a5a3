// Why claims about a rule system are refused.
ghost use Rattle.std.specs.Prelude.{◌≡◌};
ghost use Rattle.etp_canonical.specs.declared.refusal.ClaimRefusal.TheVariants.{NoMemory};

use etp_term::Term;
use std::alloc::AllocError;
use std::fmt;
use thiserror::Error;

/// Why the laws that are said to hold and to fail in a rule system are refused: the first law that
/// isn't so.
#[derive(Drop, Error)]
pub enum ClaimRefusal {
    /// The sides of a law that is to hold have these two normal forms.
    #[error("holds fails law {law}")]
    HoldsFails {
        law: u32,
        left_form: Term,
        right_form: Term,
    },
    /// Both sides of a law that is to fail have this normal form.
    #[error("fails holds law {law}")]
    FailsHolds {
        law: u32,
        form: Term,
    },
    /// The walk of the law's left side, else that of its right side, comes to a term of more than
    /// 512 leaves.
    #[error("term limit law {law}")]
    TermLimit {
        law: u32,
    },
    /// The walk of the law's left side, else that of its right side, has more than 100000 steps.
    #[error("step limit law {law}")]
    StepLimit {
        law: u32,
    },
    /// Want of memory.
    #[error("out of memory")]
    NoMemory,
}

impl fmt::Debug for ClaimRefusal {
    fn fmt<W: fmt::Write>(&self, f: &mut fmt::Formatter<W>) -> fmt::Result {
        fmt::Display::fmt(self, f)
    }
}

impl From<AllocError> for ClaimRefusal {
    ghost from_gives = { λ _ e. e ≡ NoMemory };

    fn from(_error: AllocError) -> ClaimRefusal {
        ClaimRefusal::NoMemory
    }
}
