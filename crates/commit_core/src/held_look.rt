//! What a worker holds.

use prime_field::PrimeField;
use shared_block::BlockLook;
use std::marker::Model;

/// A look at a block, with the quantum degree of the block. Contracts see a `Holding`.
#[derive(Drop)]
pub(crate) struct HeldLook<F: PrimeField> {
    pub(crate) block: i16,
    pub(crate) look: BlockLook<F>,
}

impl<F: PrimeField> Model for HeldLook<F> {
    ghost use Rattle.commit_core.specs.States.{Holding, holding_of};

    ghost Value = { Holding };

    ghost view = { λ held. holding_of held.block held.look };
}
