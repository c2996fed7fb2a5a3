//! Why a pair of laws is implied or refuted: the shortest path, and the first refuting pair.
#![tactic(auto)]

mod covers;
mod ends;
mod evidence;
mod facts;
mod graph;
mod paths;
mod searches;
mod why;

ghost use Rattle.etp_chain.specs.Theorems.{ChainTheorems};

pub use evidence::{Cover, Edge, Path};
pub use facts::Facts;
pub use why::{why_implied, why_refuted};

/// Evidence shows what it is evidence of, and there is one at most.
pub fn chain_theorems()
    ensures { ChainTheorems }
{}

#[cfg(test)]
mod tests;
