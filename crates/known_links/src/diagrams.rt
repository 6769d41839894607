//! From the arcs of crossings to a diagram.

use arrayvec::ArrayVec;
use kh_types::{CodeFault, Crossing, Diagram, RawCode};

/// Why arcs and loops are no known diagram.
#[derive(Clone, Copy, Debug, PartialEq, Eq)]
pub enum KnownFault {
    /// There are more crossings than a diagram may have.
    TooManyCrossings,
    /// The code is not accepted.
    Refused(CodeFault),
}

/// The diagram with crossings that are given by their four arcs each, and with so many loops.
pub fn diagram_of(arcs: &[[u8; 4]], loops: u8) -> Result<Diagram, KnownFault> {
    let mut crossings = ArrayVec::new();
    for slots in arcs {
        if crossings.try_push(Crossing(*slots)).is_err() {
            return Err(KnownFault::TooManyCrossings);
        }
    }
    Diagram::try_new(&RawCode { crossings, loops }).map_err(KnownFault::Refused)
}
