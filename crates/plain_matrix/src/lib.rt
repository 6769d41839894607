//! Dense matrices over a field of prime size, their plain rank, and the laws of ranks.
#![tactic(auto)]

mod dense;
mod elimination;
pub mod laws;
mod rows;
#[cfg(test)]
mod tests;
mod transpose;

pub use dense::{Dense, matrix_laws};
pub use elimination::rank;
pub use transpose::transposed;
