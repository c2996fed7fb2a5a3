use crate::parts::{MatrixFailure, Part};
use thiserror::Error;

/// Why a matrix-linear magma is refused, or why the laws that are said to hold and to fail in it are.
#[derive(Debug, Drop, Error)]
pub enum MatrixRefusal {
    /// The first number that isn't below the modulus; a number of c is in column 0.
    #[error("entry out of range")]
    Entry {
        part: Part,
        row: u8,
        column: u8,
        value: u32,
    },
    /// A law that is to hold fails.
    #[error("holds fails law {law}")]
    HoldsFails {
        law: u32,
        failure: MatrixFailure,
    },
    /// A law that is to fail holds.
    #[error("fails holds law {law}")]
    FailsHolds {
        law: u32,
    },
    /// A modulus that is 0 or above a million.
    #[error("modulus out of range")]
    Modulus {
        value: u32,
    },
}
