//! The sizes within which bytes are read.

/// The most bytes of one read.
pub const READ_BYTES: usize = 4_096;
