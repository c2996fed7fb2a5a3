use crate::parts::{LinearFailure, Which};
use thiserror::Error;

/// Why a linear magma is refused, or why the laws that are said to hold and to fail in it are.
#[derive(Debug, Drop, Error)]
pub enum LinearRefusal {
    /// The first number that is out of range.
    #[error("coefficient out of range")]
    Coefficient { which: Which, value: i64 },
    /// A law that is to hold fails.
    #[error("holds fails law {law}")]
    HoldsFails { law: u32, failure: LinearFailure },
    /// A law that is to fail holds.
    #[error("fails holds law {law}")]
    FailsHolds { law: u32 },
}
