//! The words of the command line, and what they ask.
#![tactic(auto)]

mod task;

pub use task::{Task, task_of};
