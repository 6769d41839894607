//! The sizes that the blocks of a cube within the limit on generators keep to.

/// More places than a degree has; the sum of two numbers below it is a place of an entry.
pub const PLACES: usize = 268_435_456;

/// The size up to which homological degrees are computed with.
pub const DEGREES: usize = 32;

/// The most circles of a state: 2 to this is the limit on generators.
pub const WIDTH: usize = 22;

/// How many weights there are: a weight is one byte.
pub const WEIGHTS: usize = 256;
