//! The sizes of a script and of a history.

/// The most lines of a script.
pub const SCRIPT_LINES: usize = 4_096;

/// The most diagrams of a past; when one more comes, the oldest is dropped.
pub const UNDO_DEPTH: usize = 256;

/// The greatest number by which a line names an arc or a crossing.
pub const NAMED_LIMIT: u32 = 255;

/// The most digits of such a number.
pub const NAMED_DIGITS: usize = 3;
