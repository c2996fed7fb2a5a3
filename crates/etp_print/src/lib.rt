//! The texts of refusals, the lines that say them, and the lines of evidence.
#![tactic(auto)]

mod evidence;
mod line;
mod linear;
mod matrix;
mod refusal;
mod rules;
mod table;

pub use evidence::{
    append_cover, append_edge, append_linear_failure, append_matrix_failure, append_rules_failure,
    append_table_failure, cover_text, edge_text,
};
pub use line::{begin_refusal, refuse, refuse_file, refuse_name, refuse_with};
pub use linear::linear_text;
pub use matrix::matrix_text;
pub use refusal::{body_refusal_text, file_refusal_text, replay_text};
pub use rules::{
    append_forms, append_numbered_forms, append_place, append_rules_refusal, pairs_text, rules_text,
};
pub use table::table_text;

#[cfg(test)]
mod tests;
