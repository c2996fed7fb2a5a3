//! The words of a session's lines, and what they ask.
#![tactic(auto)]

mod query;
mod request;

pub use query::Query;
pub use request::{ListOrder, Request, only_word, read_request};
