//! How runs end that nothing outside ends early.
#![tactic(auto)]

mod completeness;
mod other_words;
mod undisturbed;

pub use completeness::completeness_theorems;
pub use other_words::run_other_words;
pub use undisturbed::run_undisturbed;
