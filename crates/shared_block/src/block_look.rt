//! Looks at a block.

ghost use Rattle.std.specs.Prelude.{◌≡◌, IfOk};

use crate::BlockPatch;
use cancel_step::{Look, patch};
use kh_types::NoMemory;
use prime_field::PrimeField;
use std::alloc::Global;
use std::marker::Model;

/// A pivot of a block, with copies of the columns and rows of its own matrix that its cancellation
/// reads and changes, and the version at which they were made. Contracts see a `BlockCopy`.
#[derive(Drop)]
pub struct BlockLook<F: PrimeField> {
    pub(crate) version: u64,
    pub(crate) hint: u32,
    pub(crate) look: Look<F>,
}

impl<F: PrimeField> Model for BlockLook<F> {
    ghost use Rattle.shared_block.specs.BlockHistories.{BlockCopy, copy_with};

    ghost Value = { BlockCopy };

    ghost view = { λ look. copy_with look.version look.look };
}

impl<F: PrimeField> BlockLook<F> {
    /// The version at which the look was made, the length of the history then.
    pub fn version(&self) -> u64
        ensures { result ≡ self.now.version }
    {
        self.version
    }

    /// A hint for the next look, with which the search goes on where this one ended. No clause
    /// rests on it.
    pub fn hint(&self) -> u32 {
        self.hint
    }

    /// Computes on the copy what the cancellation of the pivot makes of it. Where memory runs out
    /// the look is gone.
    pub fn patch(self, alloc: Global) -> Result<BlockPatch<F>, NoMemory>
        ensures { IfOk result (λ made. made ≡ self) }
    {
        Ok(BlockPatch {
            version: self.version,
            patch: patch(alloc, self.look)?,
        })
    }
}
