//! Blocks that are cancelled to zero.

ghost use Rattle.std.specs.Prelude.{◌≡◌, ◌<◌, ◌∷◌, ◌++◌, [], IfOk, OnOk, length, pos};
ghost use Rattle.std.specs.Prelude.{slice_index_or};
ghost use Rattle.worker_pool.specs.Outcomes.{AreDegreesOf, AreDone, IsDone, origin_of};

use cube_signs::Cube;
use kh_types::NoMemory;
use prime_field::PrimeField;
use shared_block::{ColumnBlock, SharedBlock};
use std::alloc::Global;

/// A block that is cancelled to zero.
#[derive(Drop)]
pub(crate) struct DoneBlock<F: PrimeField> {
    /// The block, with the history of its pivots.
    pub(crate) block: SharedBlock<F>,
    /// How many of its pivots, the first ones, workers committed; the caller cancelled the others.
    pub(crate) committed: u64,
}

/// Cancels what is left of a block, to which workers committed what its history has.
pub(crate) fn finished_one<F: PrimeField>(
    alloc: Global,
    block: ColumnBlock<F>,
) -> Result<DoneBlock<F>, NoMemory>
    ensures origin { IfOk result (λ one. origin_of one.block ≡ origin_of block) }
    ensures done { IfOk result (IsDone F.P) }
    ensures count { IfOk result (λ one. one.committed ≡ length block.history) }
{
    let committed = block.version();
    let block = block.finish(alloc)?;
    Ok(DoneBlock { block, committed })
}

/// The block at one place of the quantum degrees, which the caller cancels alone.
pub(crate) fn done_alone<F: PrimeField>(
    alloc: Global,
    cube: &Cube,
    degrees: &[i16],
    place: usize,
) -> Result<DoneBlock<F>, NoMemory>
    requires degrees { AreDegreesOf cube.now degrees.now }
    requires place { place < length degrees.now }
    ensures origin { IfOk result (λ one.
        origin_of one.block ≡ (cube.now, slice_index_or degrees.now place (pos 0))) }
    ensures done { IfOk result (IsDone F.P) }
    ensures count { IfOk result (λ one. one.committed ≡ 0) }
{
    let block = SharedBlock::finished(alloc, cube, degrees[place])?;
    Ok(DoneBlock {
        block,
        committed: 0,
    })
}

/// Blocks that are cancelled to zero, as they come one after another, and the count of each.
#[derive(Drop)]
pub(crate) struct Finished<F: PrimeField> {
    pub(crate) blocks: Vec<SharedBlock<F>>,
    pub(crate) committed: Vec<u64>,
}

impl<F: PrimeField> Finished<F> {
    /// No blocks, and room for so many.
    pub(crate) fn new(alloc: Global, count: usize) -> Result<Finished<F>, NoMemory>
        ensures none { IfOk result (λ done. done.blocks.items ≡ []) }
        ensures counts { IfOk result (λ done. done.committed.items ≡ []) }
        ensures done { IfOk result (AreDone F.P) }
    {
        Ok(Finished {
            blocks: Vec::with_capacity(alloc, count)?,
            committed: Vec::with_capacity(alloc, count)?,
        })
    }

    /// Takes a block in.
    pub(crate) fn push(&mut self, one: DoneBlock<F>) -> Result<(), NoMemory>
        requires done { AreDone F.P self.old }
        requires one { IsDone F.P one }
        ensures done { OnOk result (AreDone F.P self.new) }
        ensures blocks { OnOk result (self.new.blocks.items
            ≡ self.old.blocks.items ++ one.block ∷ []) }
        ensures counts { OnOk result (self.new.committed.items
            ≡ self.old.committed.items ++ one.committed ∷ []) }
    {
        let DoneBlock { block, committed } = one;
        self.committed.push(committed)?;
        self.blocks.push(block)?;
        Ok(())
    }
}
