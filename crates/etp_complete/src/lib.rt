//! Rule systems made from a law and a weight, by completion (Knuth and Bendix 1970).
#![tactic(auto)]

mod answer;
mod asking;
mod completing;
mod failing;
mod growing;
mod rounds;

pub use answer::{Completed, Origin};
pub use completing::complete;

#[cfg(test)]
mod tests;
