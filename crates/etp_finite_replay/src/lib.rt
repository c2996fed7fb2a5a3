//! The replay of proofs for finite magmas.
#![tactic(auto)]

mod concluding;
mod judging;
mod putting;
mod refusal;
mod replaying;

pub use concluding::conclusion;
pub use judging::replay_finite;
pub use putting::{cancels, put_for};
pub use refusal::FiniteReplayRefusal;

#[cfg(test)]
mod tests;
