//! The lines of bodies: what each says, by its kind, and where it may stand.
#![tactic(auto)]

mod claims;
mod line;
mod linear;
mod matrix;
mod numbers;
mod proof;
mod rules;
mod sides;
mod table;

pub use claims::ClaimLine;
pub use line::{Line, is_blank_line, read_line};
pub use linear::LinearLine;
pub use matrix::MatrixLine;
pub use proof::{Heading, ProofLine, Version, lemma_line, step_line};
pub use rules::RulesLine;
pub use table::TableLine;

#[cfg(test)]
mod tests;
