//! What a line of the blocks of a log says.

use sparse_block::Pivot;

/// What a line behind the third says.
#[derive(Clone, Copy, Debug, PartialEq, Eq)]
pub enum LogLine {
    /// `cancel I A B`.
    Cancel { pivot: Pivot },
    /// `block J`.
    Begin { degree: i16 },
    /// `table 2`.
    Close,
    /// None of these.
    Other,
}
