//! What stands in a session: its laws with the ledger over them.
#![tactic(auto)]

mod opened;

pub use opened::Opened;

#[cfg(test)]
mod tests;
