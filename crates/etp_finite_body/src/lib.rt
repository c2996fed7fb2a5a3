//! The bodies of files about finite magmas: read line by line.
#![tactic(auto)]

ghost use Rattle.etp_finite_body.specs.Theorems.{FiniteBodyTheorems};

mod body;
mod first;
mod lemmas;
mod proof_reader;
mod reader;
mod refusal;
mod work;

pub use body::{FiniteBody, FiniteProof};
pub use lemmas::{FiniteLemma, FiniteLemmas};
pub use reader::FiniteReader;
pub use refusal::FiniteBodyRefusal;

/// A line says one thing, and lines have one refusal.
pub fn finite_body_theorems()
    ensures { FiniteBodyTheorems }
{}

#[cfg(test)]
mod tests;
