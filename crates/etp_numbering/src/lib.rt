//! Terms with their variables numbered anew, as they first come.
#![tactic(auto)]

mod numbering;

pub use numbering::{Numbered, number_anew, numbered_in, variables_of};
