//! The reply to the question which laws hold in a stored table.
#![tactic(auto)]

mod profile;

pub use profile::{answer_profile, table_of};
