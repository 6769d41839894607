//! Out of memory.

use std::alloc::{AllocError, AllocFailed};

/// Out of memory: there was none for what a call had to make. It may stand in place of any answer
/// of a call that allocates.
#[derive(Clone, Copy, Debug, PartialEq, Eq)]
pub struct NoMemory;

impl From<AllocError> for NoMemory {
    fn from(_: AllocError) -> Self {
        NoMemory
    }
}

impl<T: Drop> From<AllocFailed<T>> for NoMemory {
    fn from(_: AllocFailed<T>) -> Self {
        NoMemory
    }
}
