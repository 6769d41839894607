//! The answer to a commit.

/// What a commit came to. Versions are lengths of the history.
#[derive(Clone, Copy, Debug, PartialEq, Eq)]
pub enum CommitAnswer {
    /// The patch was taken, and this is the version since.
    Committed { version: u64 },
    /// The patch was dropped: it is of a look at the one version, and the block is at the other.
    Stale { looked: u64, now: u64 },
    /// The patch was dropped: its columns and rows are not those of the block. The degree of its
    /// pivot, and the least column where this shows.
    Foreign { degree: i16, column: u32 },
}
