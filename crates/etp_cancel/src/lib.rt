//! Finite magmas: what holds in all of them where a law holds, proofs that may cancel, and what
//! facts about them say of all pairs of laws.
#![tactic(auto)]

mod theorems;

pub use theorems::{cancel_examples, cancel_theorems};
