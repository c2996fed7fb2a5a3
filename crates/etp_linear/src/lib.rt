//! Linear magmas, x ◇ y = a x + b y + c over the integers or modulo a number, and what holds in them.
#![tactic(auto)]

mod failures;
mod forms;
mod judging;
mod linear;
mod magma;
mod making;
mod parts;
mod refusal;
mod ring;
mod theorems;

pub use linear::Linear;
pub use parts::{Form, LinearFailure, Ring, Which};
pub use refusal::LinearRefusal;
pub use theorems::linear_theorems;

#[cfg(test)]
mod tests;
