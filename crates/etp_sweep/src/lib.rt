//! The profile of a table: the numbers of all listed laws that hold in it.
#![tactic(auto)]

mod refusal;
mod sweep;

pub use refusal::SweepRefusal;
pub use sweep::profile;

#[cfg(test)]
mod tests;
