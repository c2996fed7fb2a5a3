//! The reply that says why a pair of laws is implied or refuted.
#![tactic(auto)]

mod failing;
mod paths;
mod why;

pub use why::answer_why;
