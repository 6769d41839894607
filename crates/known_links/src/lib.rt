//! Known links as planar diagrams, for the tests of all crates.
#![tactic(auto)]

mod codes;
mod diagrams;

pub use codes::{CURL, FIGURE_EIGHT, HOPF, TORUS_KNOT, TREFOIL, WHITEHEAD};
pub use diagrams::{KnownFault, diagram_of};
