//! Unification of two terms: a most general substitution that makes both equal, or none exists.
#![tactic(auto)]

mod solving;
mod unifying;
mod values;

pub use unifying::{Unified, unify};

#[cfg(test)]
mod tests;
