//! Calls that take memory, of the crates between the files and the sessions: each once on its happy
//! path, in the tests of this crate.
#![tactic(auto)]

#[cfg(test)]
mod tests;
