//! The sizes of braids.

/// The most strands of a braid.
pub const STRANDS: u8 = 8;

/// The most letters of a braid.
pub const LETTERS: usize = 16;

/// How many diagrams have a number: their numbers are below it.
pub const NUMBERS: u32 = 1_048_576;
