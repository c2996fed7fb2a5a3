//! Operation tables: values of terms, the first failing assignment of a law, and files of laws that
//! hold and fail in a table.
#![tactic(auto)]

ghost use Rattle.etp_table.specs.Theorems.{VerdictTheorems, TableExamples};

mod compiled;
mod instructions;
mod judging;
mod magma;
mod point;
mod program;
mod refusal;
mod table;

pub use point::{Point, Verdict};
pub use refusal::TableRefusal;
pub use table::OpTable;

/// A law has one first failing assignment at most, entries one first wrong one, and laws one first
/// offence; and there is none where all is as it is to be.
pub fn verdict_theorems()
    ensures { VerdictTheorems }
{}

/// A small table at which the definitions are computed.
pub fn table_examples()
    ensures { TableExamples }
{}

#[cfg(test)]
mod tests;
