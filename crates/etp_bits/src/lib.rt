//! Lists of numbers, and matrices of bits whose rows are joined word by word.
#![tactic(auto)]

mod matrix;
mod numbers;
mod words;

pub use matrix::Matrix;
pub use numbers::Numbers;

#[cfg(test)]
mod tests;
