//! What an edge does to the circles, what the numbers of circles are, known diagrams, and the
//! limit.

pub mod edges;
pub mod generators;
pub mod known;
pub mod limits;
pub mod numbers;
