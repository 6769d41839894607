//! The unnormalised Jones polynomial of a diagram, as the sum over its states, and its line.
#![tactic(auto)]

mod finding;
mod jones_line;
mod kinds;
mod laurent;
pub mod laws;
mod terms;

pub use finding::{jones, state_sum};
pub use jones_line::print_jones;
pub use laurent::{COEFFICIENTS, Laurent, exponent_at, place_of};
