//! A block as what a versioned lock holds: its origin is the diagram with the degree, its entries
//! are the pivots.

ghost use Rattle.std.specs.Prelude.{◌≡◌, true};
ghost use Rattle.kh_types.specs.Complex.{is_zero};
ghost use Rattle.shared_block.specs.BlockHistories.{Fits, block_with, complex_of};

use crate::laws::block_laws;
use crate::{BlockLook, BlockPatch, SharedBlock};
use kh_types::{Diagram, NoMemory};
use prime_field::PrimeField;
use sparse_block::Pivot;
use std::alloc::Global;
use version_lock::Held;

impl<F: PrimeField + Send> Held for SharedBlock<F> {
    type Origin = (Diagram, i16);

    type Entry = Pivot;

    type Look = BlockLook<F>;

    type Patch = BlockPatch<F>;

    ghost origin = { λ held. (held.diagram, held.degree) };

    ghost history = { λ held. held.history };

    ghost entry = { λ patch. patch.parts.pivot };

    ghost look_fits = { λ look origin history. Fits F.P (block_with origin.0 origin.1 history) look };

    ghost patch_fits = { λ patch origin history.
        Fits F.P (block_with origin.0 origin.1 history) patch };

    ghost done = { λ origin history.
        is_zero (complex_of F.P (block_with origin.0 origin.1 history)) ≡ true };

    fn version(&self) -> u64 {
        SharedBlock::version(self)
    }

    fn look_at(&self, alloc: Global, hint: u32) -> Result<Option<BlockLook<F>>, NoMemory> {
        block_laws(self);
        self.look(alloc, hint)
    }

    fn take(&mut self, patch: BlockPatch<F>) {
        self.take_fitting(patch);
    }

    ghost look_is_short = { λ look origin history fits. fits.short };

    ghost patch_is_short = { λ patch origin history fits. fits.short };
}
