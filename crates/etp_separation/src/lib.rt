//! What proofs, tables and linear magmas with a modulus say of finite magmas.
#![tactic(auto)]

mod theorems;

pub use theorems::separation_theorems;
