ghost use Rattle.std.specs.Prelude.{◌≡◌};
ghost use Rattle.etp_table.specs.declared.refusal.TableRefusal.TheVariants.{NoMemory};

use crate::point::Point;
use std::alloc::{AllocError, AllocFailed};
use thiserror::Error;

/// Why a table is refused, or why the laws that are said to hold and to fail in it are.
#[derive(Debug, Drop, Error)]
pub enum TableRefusal {
    /// The first entry that isn't below the size; rows and columns count from 0.
    #[error("entry row {row} column {column} value {value}")]
    Entry {
        row: u8,
        column: u8,
        value: u32,
    },
    /// A law that is to hold fails at this point, the first such.
    #[error("holds fails law {law}")]
    HoldsFails {
        law: u32,
        point: Point,
        left: u8,
        right: u8,
    },
    /// A law that is to fail does so at none of the assignments that were looked at.
    #[error("fails holds law {law} looked at {looked_at}")]
    FailsHolds {
        law: u32,
        looked_at: u64,
    },
    /// A law that is to hold has too many assignments to look at all.
    #[error("too many assignments law {law} size {size} variables {variables}")]
    TooManyAssignments {
        law: u32,
        size: u8,
        variables: u8,
    },
    /// Want of memory.
    #[error("out of memory")]
    NoMemory,
}

impl From<AllocError> for TableRefusal {
    ghost from_gives = { λ _ e. e ≡ NoMemory };

    fn from(_error: AllocError) -> TableRefusal {
        TableRefusal::NoMemory
    }
}

impl<T: Drop> From<AllocFailed<T>> for TableRefusal {
    ghost from_gives = { λ _ e. e ≡ NoMemory };

    fn from(_error: AllocFailed<T>) -> TableRefusal {
        TableRefusal::NoMemory
    }
}
