use crate::lemmas::FiniteLemmas;
use etp_items::{LinearBody, TableBody};

/// What the lines of a file about finite magmas say.
#[derive(Drop)]
pub enum FiniteBody {
    /// A proof of one law from another by rewriting and by cancelling.
    Proof(FiniteProof),
    /// An operation table that is to be a model of laws.
    Table(TableBody),
    /// A linear magma with a modulus that is to be a model of laws.
    Linear(LinearBody),
}

/// A proof that the law numbered `goal` holds in each finite magma of the law numbered `hypothesis`.
#[derive(Drop)]
pub struct FiniteProof {
    pub hypothesis: u32,
    pub goal: u32,
    pub lemmas: FiniteLemmas,
}
