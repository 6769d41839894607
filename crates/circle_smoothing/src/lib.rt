//! The circles of the states of a diagram, what an edge of the cube does to them, how many states
//! and generators there are of each kind, and the limit on generators.
#![tactic(auto)]

mod branches;
mod change;
mod finding;
mod kinds;
pub mod laws;
mod limits;
mod numbered;
mod numbering;
mod prepared;
mod tables;
mod triangle;
mod walk;

pub use change::Edge;
pub use finding::{circles, edge, generator_count};
pub use kinds::{COLUMNS, CountedDiagram, KINDS};
pub use limits::GENERATORS;
pub use numbered::Circles;
pub use prepared::Smoothings;
pub use triangle::Triangle;
