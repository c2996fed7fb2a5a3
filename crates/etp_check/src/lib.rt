//! The check of a file's body, which gives the fact that it states.
#![tactic(auto)]

ghost use Rattle.etp_check.specs.Theorems.{CheckTheorems};

mod checking;
mod refusal;
mod system;
mod written;

pub use checking::check;
pub use refusal::CheckRefusal;
pub use system::system_of;
pub use written::written_theorems;

/// A body is valid, or it has one first offence.
pub fn check_theorems()
    ensures { CheckTheorems }
{}
