//! Proofs by lemmas and steps, and names of files.
#![tactic(auto)]

mod label;
mod proof;

pub use label::{Cites, Label};
pub use proof::{Lemma, Lemmas, Proof, Step, Steps};

#[cfg(test)]
mod tests;
