//! The sizes of words.

/// The most digits in which the number of a diagram is written.
pub const NUMBER_DIGITS: usize = 7;

/// The most digits in which a marked arc is written.
pub const MARK_DIGITS: usize = 3;

/// The greatest number that can be marked.
pub const MARK_LIMIT: u32 = 255;

/// The most digits in which a number of workers is written.
pub const WORKERS_DIGITS: usize = 2;
