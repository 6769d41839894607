//! What can be wrong with a code.

/// The rule of acceptance that a code breaks first, with what shows it. Crossings and arcs are
/// numbered from 1, slots are 0 to 3. The rules stand in the order of their tests. Source: this
/// project's rule.
#[derive(Clone, Copy, Debug, PartialEq, Eq)]
pub enum CodeFault {
    /// The first slot, in order of crossing, then slot, that holds a number which is no arc.
    ArcRange { crossing: u8, slot: u8 },
    /// The least arc that does not stand exactly twice, and how often it stands.
    ArcTimes { arc: u8, times: u8 },
    /// The least arc of a component that is no interval.
    Interval { arc: u8 },
    /// The first crossing whose under pass does not go to the next arc.
    Under { crossing: u8 },
    /// The first crossing whose over pass joins no arc with its next.
    Over { crossing: u8 },
    /// The first crossing that is the second of two under passes in one direction on a component of
    /// two arcs.
    TwoArc { crossing: u8 },
    /// The least arc up to which the checkerboard equations have no solution.
    Checkerboard { arc: u8 },
    /// The number of faces, where another is wanted.
    Genus { faces: u8, wanted: u8 },
    /// The number of components and loops together, where it is too large.
    Components { count: u16 },
}
