//! Matrix-linear magmas, x ◇ y = A x + B y + c over vectors of one to four numbers modulo a number, and
//! what holds in them.
#![tactic(auto)]

mod failures;
mod forms;
mod judging;
mod magma;
mod making;
mod matrix_linear;
mod parts;
mod refusal;
mod theorems;
mod vectors;

pub use matrix_linear::MatrixLinear;
pub use parts::{MatrixFailure, Part};
pub use refusal::MatrixRefusal;
pub use theorems::matrix_theorems;

#[cfg(test)]
mod tests;
