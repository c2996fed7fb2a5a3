//! Replies about pairs of laws.
#![tactic(auto)]

mod block;
mod classes;
mod pair;
mod row;

pub use block::answer_csv;
pub use classes::{answer_class, answer_classes};
pub use pair::{answer_counts, answer_pair, append_pair};
pub use row::answer_row;
