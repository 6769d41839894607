//! What squares of the cube do to circles and signs, that the differential squares to zero, and
//! that blocks are complexes.

pub mod blocks;
pub mod coefficients;
pub mod deformed;
pub mod known;
pub mod squares;
