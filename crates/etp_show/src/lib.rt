//! Replies that show laws and files.
#![tactic(auto)]

mod file;
mod law;
mod printed;

pub use file::answer_files;
pub use law::{answer_dual, answer_law, answer_number, append_law_line};
pub use printed::{answer_ledger, append_printed};
