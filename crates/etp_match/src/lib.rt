//! Substitutions, matching of a pattern onto a term, and replacement at a position.
#![tactic(auto)]

mod matching;
mod replacing;
mod subst;
mod table;

pub use matching::{Matched, match_onto};
pub use replacing::replace_at;
pub use subst::Subst;
pub use table::Bindings;

#[cfg(test)]
mod tests;
