//! What can be wrong with a list of slices.

/// The first fault of a list of slices, which are numbered from 1; at one slice the faults stand in
/// their order.
#[derive(Clone, Copy, Debug, PartialEq, Eq)]
pub enum SliceFault {
    /// The slice has no place in the row, or is a cap beside too many strands.
    Place { slice: u32 },
    /// The slice is a crossing whose number is none or was drawn before, or with a slot above 3.
    Label { slice: u32 },
    /// The slice closes a loop too many.
    Loops { slice: u32 },
    /// So many strands are left at the end.
    Ends { strands: u8 },
}
