//! The slices of a drawing.

/// One step of a drawing from the top of the page to the bottom, over a row of strands whose
/// positions are counted from 1.
#[derive(Clone, Copy, Debug, PartialEq, Eq)]
pub enum Slice {
    /// Two strands begin, joined above; the left one is at the position.
    Cap { at: u8 },
    /// The strands at the position and the next end, joined below.
    Cup { at: u8 },
    /// The strands at the position and the next cross. The slot is at the upper left, and the slots
    /// follow counterclockwise. Crossings count from 1 in list order, and slots are 0 to 3.
    Cross { at: u8, crossing: u8, slot: u8 },
}
