//! Sessions: lines of commands in, lines of answers out.
#![tactic(auto)]

mod loading;
mod serving;
mod unique;

pub use serving::{Ending, session};
pub use unique::one_text;

#[cfg(test)]
mod tests;
