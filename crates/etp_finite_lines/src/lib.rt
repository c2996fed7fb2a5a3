//! The lines of finite proofs: what each says, and where it may stand.
#![tactic(auto)]

ghost use Rattle.etp_reading.specs.Grammars.{OneLine};
ghost use Rattle.etp_finite_lines.specs.FiniteLines.{finite_proofs};

mod cancel;
mod line;
mod sides;

pub use cancel::CancelLine;
pub use line::{FiniteLine, read_finite_line};

/// A line says one thing, and a blank line nothing.
pub fn finite_line_theorems()
    ensures { OneLine finite_proofs }
{}

#[cfg(test)]
mod tests;
