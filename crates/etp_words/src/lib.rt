//! The words of a line, and numbers as words.
#![tactic(auto)]

mod numbers;
mod words;

pub use numbers::number_word;
pub use words::{behind, is, is_comment, next_word, skip_blanks};
