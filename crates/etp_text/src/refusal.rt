ghost use Rattle.std.specs.Prelude.{◌≡◌};
ghost use Rattle.etp_text.specs.declared.refusal.TextRefusal.TheVariants.{NoMemory};

use std::alloc::AllocError;
use thiserror::Error;

/// Why a text isn't read: the first refusal from left to right. Places count bytes from 0.
#[derive(Clone, Copy, Debug, PartialEq, Eq, Error)]
pub enum TextRefusal {
    /// A token, a byte or the text's end stands where no text of the grammar goes on so.
    #[error("syntax at {at}")]
    Syntax { at: u32 },
    /// A name that is none of the 64 variables stands where a variable may stand.
    #[error("variable at {at}")]
    Variable { at: u32 },
    /// A side has more than 255 leaves.
    #[error("too large {leaves}")]
    TooLarge { leaves: u32 },
    #[error("out of memory")]
    NoMemory,
}

impl From<AllocError> for TextRefusal {
    ghost from_gives = { λ _ e. e ≡ NoMemory };

    fn from(_error: AllocError) -> TextRefusal {
        TextRefusal::NoMemory
    }
}
