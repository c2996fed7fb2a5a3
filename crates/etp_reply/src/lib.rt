//! What a session keeps between two lines, and what each line comes to.
#![tactic(auto)]

mod desk;
mod query;
mod reply;

pub use desk::Desk;
pub use etp_filing::{Filing, take_line};
pub use reply::{Outcome, respond, respond_at_end, respond_loaded};
