//! The limits of the numbers in a text.

/// The greatest size of a number in a code.
pub const NUMBER_LIMIT: u32 = 65_535;

/// The most digits of a number that a word is.
pub const NUMBER_DIGITS: usize = 7;
