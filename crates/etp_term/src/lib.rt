//! Terms, laws and positions of the program, with their counts, orders, copies and subterms.
#![tactic(auto)]

mod law;
mod position;
mod term;
mod word;

pub use law::Law;
pub use position::{Position, Side};
pub use std::alloc::AllocError as NoMemory;
pub use term::Term;
pub use word::Word;

#[cfg(test)]
mod tests;
