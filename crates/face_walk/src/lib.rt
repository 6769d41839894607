//! The faces of a diagram as it is drawn on the sphere, and its connected pieces, each with a
//! number.
#![tactic(auto)]

mod class_numbers;
mod connected;
mod finding;
pub mod laws;
mod numbered;
mod sides;
mod walk;

pub use connected::{piece_of, pieces};
pub use finding::faces;
pub use numbered::Faces;
pub use sides::{left_of, right_of};
