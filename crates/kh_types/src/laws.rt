//! Laws of the definitions: each is the contract of a function that does nothing, proved with the
//! crate.

pub mod acceptance;
pub mod accepted;
pub mod checkerboard;
pub mod classes;
pub mod complexes;
pub mod darts;
pub mod diagrams;
pub mod heads;
pub mod ranks;
pub mod sizes;
