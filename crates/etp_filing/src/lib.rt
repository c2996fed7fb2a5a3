//! Files that are read line by line, accepted or refused, and taken out.
#![tactic(auto)]

mod accepting;
mod filing;
mod withdrawal;

pub use accepting::answer_file;
pub use filing::{Filing, closes_body, has_free_name, open_file, take_line};
pub use withdrawal::answer_withdrawal;
