//! The words of the command line that read nothing: what is written, and how much of it.
#![tactic(auto)]

mod generating;
mod listing;
mod searching;

pub use generating::write_script;
pub use listing::list_laws;
pub use searching::{Search, write_search};
