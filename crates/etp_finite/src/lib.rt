//! The ledger of finite magmas: files by their names, and what they say of all pairs of laws.
#![tactic(auto)]

mod facts;
mod kept;
mod ledger;

pub use etp_finite_body::FiniteBody;
pub use etp_finite_check::FiniteRefusal;
pub use ledger::FiniteLedger;

#[cfg(test)]
mod tests;
