//! Where a copy differs.

/// Where a complex is not the one that was copied: the least column that tells.
#[derive(Clone, Copy, Debug, PartialEq, Eq)]
pub struct Foreign {
    /// The degree of the column.
    pub degree: i16,
    /// The column, a place of that degree, from 0.
    pub column: u32,
}
