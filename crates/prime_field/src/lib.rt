//! The fields of two, three, five and seven elements under one trait, with laws for generic code;
//! which of the four, as a value.
#![tactic(auto)]

mod derived;
mod field;
mod five;
pub mod laws;
mod seven;
mod size;
#[cfg(test)]
mod tests;
mod three;
mod two;

pub use derived::{difference, quotient};
pub use field::PrimeField;
pub use five::F5;
pub use seven::F7;
pub use size::{Elements, FieldSize};
pub use three::F3;
pub use two::F2;
