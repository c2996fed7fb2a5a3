//! What holds of all completions.
#![tactic(auto)]

mod theorems;

pub use theorems::{acceptance_theorems, completion_theorems};
