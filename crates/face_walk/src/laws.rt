//! What faces and pieces are, on known diagrams and in general.

pub mod arcs;
pub mod known;
pub mod numbers;
pub mod planar;
