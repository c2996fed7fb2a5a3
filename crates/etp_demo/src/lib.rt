//! The summary of a ledger that took generated files and withdrew the first.
#![tactic(auto)]

mod filling;
mod reading;
mod summary;

pub use summary::write_demo;
