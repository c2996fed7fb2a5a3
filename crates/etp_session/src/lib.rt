//! The top call: what the words of the command line ask is done.
#![tactic(auto)]

mod top;

pub use top::{run, run_in_memory};

#[cfg(test)]
mod tests;
