//! What refuses a union.

/// What two diagrams have too many of, together, for a union that can be written and read;
/// crossings come first.
#[derive(Clone, Copy, Debug, PartialEq, Eq)]
pub enum UnionFault {
    /// They have `count` crossings, which are more than `CROSSINGS`.
    Crossings { count: u8 },
    /// They have `count` loops, which are more than `LOOPS`.
    Loops { count: u8 },
}
