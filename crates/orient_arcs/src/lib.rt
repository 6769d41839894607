//! The components of a diagram, numbered by their least arcs, the arc that follows an arc along the
//! orientation, and renumbering: crossings over any names of arcs, with directions, as a code.
#![tactic(auto)]

pub mod laws;
mod numbered;
mod of_diagram;
mod pairing;
mod parts;
mod passes;
mod renumbering;

pub use numbered::Components;
pub use of_diagram::{components, next};
pub use parts::Parts;
pub use renumbering::renumber;
