//! The lines of a body, counted as they are read.
#![tactic(auto)]

mod refusal;
mod tally;

pub use refusal::BodyRefusal;
pub use tally::{Tally, Unlisted};
