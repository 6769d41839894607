//! What is called in each turn of a worker.

/// What a worker calls once in each turn. Where no thread can be made the workers work one after
/// another, so a gate that waits for another worker may wait for ever.
///
/// A gate that holds one worker back holds up no other but at the end, where all of them wait for
/// it: they share the diagram's blocks, and what it has begun the others finish.
pub trait Gate {
    /// Called by a worker between its patch and its commit, with its number, from 1, and the number
    /// of its turn, from 1 each time that it begins at a block.
    fn before_commit(&self, worker: u32, turn: u64);
}

/// A gate that does nothing.
pub struct Free;

impl Gate for Free {
    fn before_commit(&self, _worker: u32, _turn: u64) {}
}
