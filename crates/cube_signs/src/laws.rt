//! Which labels are behind an edge, and where blocks begin and end.

pub mod blocks;
pub mod heads;
