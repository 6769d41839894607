//! The sizes of drawings.

use kh_types::CROSSINGS;

/// The most strands beside which a cap can stand: 62, so that a row has at most 64.
pub const CAP_STRANDS: usize = 62;

/// The most loops that slices join.
pub const JOINED_LOOPS: u8 = 255;

/// The most strands of a row in the drawing of a diagram: each crossing adds two at most, and the
/// first four, which is a law.
pub const DRAWN_STRANDS: usize = 2 * CROSSINGS + 2;

/// How many darts there are at most.
pub const DARTS: usize = 4 * CROSSINGS;

/// How many strands a row of slices has at most; so many lines without darts are numbered.
pub const ROW_STRANDS: usize = CAP_STRANDS + 2;
