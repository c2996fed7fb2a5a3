//! Shortest proofs by one law over the terms of a space, and the terms that one step leads to.
#![tactic(auto)]

ghost use Rattle.etp_search.specs.Examples.{SearchExamples};

mod answer;
mod expanding;
mod filling;
mod leading;
mod levels;
mod nearest;
mod order;
mod space;
mod terms;

pub use answer::{Searched, shortest};
pub use expanding::{add_neighbours, neighbours};
pub use space::Space;
pub use terms::Terms;

/// Small searches that compute.
pub fn search_examples()
    ensures { SearchExamples }
{}

#[cfg(test)]
mod tests;
