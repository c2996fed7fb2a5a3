//! Named files that are accepted and withdrawn, and the answers that follow from those that stand.
#![tactic(auto)]

ghost use Rattle.etp_ledger.specs.Theorems.{LedgerTheorems};

mod citing;
mod facts;
mod kept;
mod ledger;
mod refusal;
mod why;

pub use etp_chain::{Cover, Edge, Path};
pub use etp_proof::Label as Name;
pub use ledger::Ledger;
pub use refusal::LedgerRefusal;
pub use why::Why;

/// A file is accepted, or it is refused in one way, and so is a withdrawal; only want of memory may
/// come besides.
pub fn ledger_theorems()
    ensures { LedgerTheorems }
{}

#[cfg(test)]
mod tests;
