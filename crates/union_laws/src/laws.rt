//! Disjoint unions, and diagrams as the unions of their pieces.

pub mod pieces;
pub mod unions;
pub mod worked;
