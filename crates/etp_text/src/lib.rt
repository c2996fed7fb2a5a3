//! Texts of terms and laws.
#![tactic(auto)]

ghost use Rattle.etp_text.specs.Theorems.{TextTheorems};

mod read;
mod reading;
mod refusal;
mod text;
mod token;
mod write;

pub use read::{read_law, read_term};
pub use refusal::TextRefusal;
pub use text::Text;
pub use write::{write_law, write_term};

/// A text spells one value, the written form spells what it is written of, and what is spelled
/// within the limit isn't refused.
pub fn text_theorems()
    ensures { TextTheorems }
{}

#[cfg(test)]
mod tests;
