//! The sizes of logs.

/// The most bytes of a log.
pub const LOG_BYTES: usize = 67_108_864;

/// The most digits of a degree in a line.
pub const DEGREE_DIGITS: usize = 3;

/// The most digits of a column or a row in a line.
pub const PLACE_DIGITS: usize = 7;
