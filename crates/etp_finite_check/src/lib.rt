//! The check of a body about finite magmas, which gives the fact that it states.
#![tactic(auto)]

mod checking;
mod refusal;

pub use checking::check_finite;
pub use refusal::FiniteRefusal;
