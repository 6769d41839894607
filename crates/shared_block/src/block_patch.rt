//! Patches of a block.

ghost use Rattle.std.specs.Prelude.{◌≡◌};

use cancel_step::Patch;
use prime_field::PrimeField;
use std::marker::Model;

/// A look, with its columns and rows as they are after the cancellation. Contracts see the
/// `BlockCopy` that the look had.
#[derive(Drop)]
pub struct BlockPatch<F: PrimeField> {
    pub(crate) version: u64,
    pub(crate) patch: Patch<F>,
}

impl<F: PrimeField> Model for BlockPatch<F> {
    ghost use Rattle.shared_block.specs.BlockHistories.{BlockCopy, copy_with};

    ghost Value = { BlockCopy };

    ghost view = { λ patch. copy_with patch.version patch.patch };
}

impl<F: PrimeField> BlockPatch<F> {
    /// The version at which the look was made, the length of the history then.
    pub fn version(&self) -> u64
        ensures { result ≡ self.now.version }
    {
        self.version
    }
}
