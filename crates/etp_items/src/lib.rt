//! The bodies of files: read line by line, and written.
#![tactic(auto)]

ghost use Rattle.etp_items.specs.Theorems.{BodyTheorems};

mod body;
mod claims;
mod linear;
mod magma;
mod matrix;
mod model;
mod numbers;
mod proof;
mod reader;
mod rules;
mod table;
mod work;
mod writing;

pub use body::{Body, Claims, LinearBody, MatrixBody, RulesBody, TableBody};
pub use etp_lines::{lemma_line, step_line};
pub use etp_reading::BodyRefusal;
pub use etp_words::number_word;
pub use numbers::append_spaced;
pub use reader::BodyReader;
pub use writing::body_text;

/// Lines are one body or have one refusal.
pub fn body_theorems()
    ensures { BodyTheorems }
{}

#[cfg(test)]
mod tests;
