//! The sizes of texts that are read.

/// The most bytes of the text of a table that is read.
pub const TABLE_BYTES: usize = 1_048_576;

/// The greatest size of a quantum degree in a text of version 1.
pub const FIRST_EXPONENT: usize = 72;

/// The greatest size of a homological degree in a text of version 1.
pub const FIRST_CROSSINGS: usize = 16;
