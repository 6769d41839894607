//! Who cancels the blocks of a diagram.

use std::alloc::Global;

/// So many workers, with the system that gives them threads, the memory that they take, and the
/// gate that they call.
#[derive(Drop)]
pub(crate) struct Crew<'a, R, G> {
    pub(crate) rt: &'a R,
    pub(crate) alloc: Global,
    pub(crate) workers: u32,
    pub(crate) gate: &'a G,
}
