//! What ends the making of a reduced table.

/// Why there is no reduced table.
#[derive(Clone, Copy, Debug, PartialEq, Eq)]
pub enum ReducedStop {
    /// The mark is neither an arc nor a loop of the diagram.
    Mark {
        /// The number that was marked.
        arc: u8,
    },
    /// There are more generators than the limit, `GENERATORS`.
    SizeLimit {
        /// How many there are.
        generators: u128,
    },
    /// There is not enough memory.
    NoMemory,
}
