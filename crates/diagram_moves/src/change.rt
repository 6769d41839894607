//! The Reidemeister moves.

/// A side of an arc, seen along its direction.
#[derive(Clone, Copy, Debug, PartialEq, Eq)]
pub enum Side {
    /// The side at the left hand.
    Left,
    /// The side at the right hand.
    Right,
}

/// A Reidemeister move at a place of a diagram. Arcs and crossings are numbered from 1.
/// Source: Reidemeister 1927.
#[derive(Clone, Copy, Debug, PartialEq, Eq)]
pub enum Move {
    /// A kink is put on an arc; its first pass is under or over, its crossing positive or negative.
    KinkAdd {
        arc: u8,
        under_first: bool,
        positive: bool,
    },
    /// A crossing with a kink is dropped.
    KinkDrop {
        crossing: u8,
    },
    /// A finger of one arc is pushed over another, through the face at the named side of each.
    FingerAdd {
        over: u8,
        over_side: Side,
        under: u8,
        under_side: Side,
    },
    /// Two crossings that meet in a bigon are dropped.
    FingerDrop {
        first: u8,
        second: u8,
    },
    /// The strands of the triangle at three crossings are slid over one another.
    Slide {
        first: u8,
        second: u8,
        third: u8,
    },
}
