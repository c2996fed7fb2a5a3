//! Reached and covered pairs of laws, kept as rows of bits.
#![tactic(auto)]

mod closure;
mod facts;
mod slots;
mod tables;

pub use closure::Closure;
pub use facts::{Answer, Fact, RowCounts};

#[cfg(test)]
mod tests;
