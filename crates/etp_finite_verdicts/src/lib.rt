//! What holds of all files about finite magmas and the ledger's verdict.
#![tactic(auto)]

ghost use Rattle.etp_finite_verdicts.specs.Theorems.{FiniteVerdictTheorems};

/// Lines are one body or are refused; a body has one offence, and a valid one none. So a valid file
/// with a free name is refused for want of memory alone.
pub fn finite_verdict_theorems()
    ensures { FiniteVerdictTheorems }
{}
