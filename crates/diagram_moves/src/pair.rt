//! Two crossings by their places.

/// Two crossings by their places in the list.
#[derive(Clone, Copy)]
pub(crate) struct Pair {
    pub first: u8,
    pub second: u8,
}
