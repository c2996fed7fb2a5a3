// Proofs: the proof that the lines make, and its text.
pub(crate) mod work;
pub(crate) mod writing;
