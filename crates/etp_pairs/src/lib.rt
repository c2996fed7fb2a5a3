//! Critical pairs of a rule system, and whether all of them join.
#![tactic(auto)]

mod convergence;
mod judging;
mod naming;
mod pairing;
mod refusal;
mod theorems;

pub use convergence::convergent;
pub use judging::{Judged, judge_terms};
pub use pairing::{CriticalPair, overlap};
pub use refusal::PairsRefusal;
pub use theorems::pairs_theorems;

#[cfg(test)]
mod tests;
