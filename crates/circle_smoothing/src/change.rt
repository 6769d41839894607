//! What an edge of the cube does to the circles.

ghost use Rattle.std.specs.Prelude.{◌≡◌, min, max};
ghost use Rattle.circle_smoothing.specs.declared.change.Edge.TheVariants.{Merge, Split};

/// What becomes of the circles along an edge, which goes from the 0-smoothing of a crossing to its
/// 1-smoothing. Circles are given by their numbers in the state before the edge, or behind it, and
/// `a` is below `b`. Source: Bar-Natan 2002, section 3.
#[derive(Clone, Copy, Debug, PartialEq, Eq)]
pub enum Edge {
    /// The circles `a` and `b` before the edge become the circle `to` behind it.
    Merge { a: u8, b: u8, to: u8 },
    /// The circle `from` before the edge becomes the circles `a` and `b` behind it.
    Split { from: u8, a: u8, b: u8 },
}

/// The merge of two circles.
pub(crate) fn merge(x: u8, y: u8, to: u8) -> Edge
    ensures { result ≡ Merge (min x y) (max x y) to }
{
    Edge::Merge {
        a: x.min(y),
        b: x.max(y),
        to,
    }
}

/// The split into two circles.
pub(crate) fn split(from: u8, x: u8, y: u8) -> Edge
    ensures { result ≡ Split from (min x y) (max x y) }
{
    Edge::Split {
        from,
        a: x.min(y),
        b: x.max(y),
    }
}
