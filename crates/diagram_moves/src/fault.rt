//! What keeps a move from being made.

/// The least numbered fault of a move; the faults stand in their order.
#[derive(Clone, Copy, Debug, PartialEq, Eq)]
pub enum MoveFault {
    /// The first named arc that is no arc and no loop.
    NoArc { arc: u8 },
    /// The first named crossing that there is not.
    NoCrossing { crossing: u8 },
    /// There would be too many crossings: so many.
    CrossingLimit { count: u8 },
    /// The first named arc that is a loop.
    OnLoop { arc: u8 },
    /// The two arcs are one.
    SameArc { arc: u8 },
    /// The crossing has no kink.
    NoKink { crossing: u8 },
    /// The two crossings meet in no bigon.
    NoBigon { first: u8, second: u8 },
    /// The three crossings have no triangle.
    NoTriangle { first: u8, second: u8, third: u8 },
    /// In each triangle of the three crossings each strand goes over one and under one.
    Heights,
    /// The number of faces of the code that results, where a drawing on the sphere has another.
    Genus { faces: u8, wanted: u8 },
}
