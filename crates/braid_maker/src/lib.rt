//! Closed braids as codes, each of which is accepted, and the diagrams of numbers, which have few
//! generators.
#![tactic(auto)]

mod closing;
pub mod laws;
mod letters;
mod limits;
mod numbered;
mod rising;

pub use closing::closure;
pub use letters::are_letters;
pub use limits::{LETTERS, NUMBERS, STRANDS};
pub use numbered::{NumberLimit, from_number};
