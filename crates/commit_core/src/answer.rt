//! The answers to events.

/// What an event came to. Versions are lengths of a block's history.
#[derive(Clone, Copy, Debug, PartialEq, Eq)]
pub enum Answer {
    /// The worker holds a look at the block at this version.
    Looked { version: u64 },
    /// The block is zero.
    Zero,
    /// The patch was taken, and this is the version since.
    Committed { version: u64 },
    /// The patch was dropped: it is of a look at the one version, and the block is at the other.
    Stale { looked: u64, now: u64 },
    /// The worker holds nothing.
    Idle,
    /// The worker has given up what it held.
    Forgot,
    /// No block has this quantum degree.
    NoBlock,
}
