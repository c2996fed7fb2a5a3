//! Reports on all pairs of laws.
#![tactic(auto)]

mod block;
mod classes;
mod counts;
mod refusal;
mod row;

pub use block::{answer_word, csv_block};
pub use classes::{Classes, class_of, classes_of};
pub use counts::{Counts, count_answers};
pub use refusal::ReportRefusal;
pub use row::{Row, row_of};
