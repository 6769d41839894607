//! Turned labels, and marks.

pub mod marks;
pub mod turns;
