//! The words that ask for a completion: what is written, and how much of it.
#![tactic(auto)]

mod completing;
mod text;

pub use completing::{Completion, write_completion};
