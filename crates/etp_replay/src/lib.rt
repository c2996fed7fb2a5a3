//! The replay of proofs.
#![tactic(auto)]

ghost use Rattle.etp_replay.specs.Theorems.{ReplayTheorems};

mod checking;
mod judging;
mod refusal;
mod replaying;

pub use checking::{StepCheck, check_step};
pub use etp_proof::{Cites, Label, Lemma, Lemmas, Proof, Step, Steps};
pub use judging::replay;
pub use refusal::ReplayRefusal;

/// A step has one finding, and a proof one verdict: it is valid, or it has one first offence.
pub fn replay_theorems()
    ensures { ReplayTheorems }
{}

#[cfg(test)]
mod tests;
