//! Laws that are to hold in the normal forms of a rule system, and laws that are to fail there.
#![tactic(auto)]

mod judging;
mod refusal;
mod theorems;

pub use judging::judge;
pub use refusal::ClaimRefusal;
pub use theorems::canonical_theorems;

#[cfg(test)]
mod tests;
