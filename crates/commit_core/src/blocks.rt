//! The blocks of a core: where one stands, what is seen there, and commits to it.

ghost use Rattle.std.specs.Prelude.{◌≡◌, None, IfOk, MatchOption};
ghost use Rattle.shared_block.specs.Commits.{IsForeignAnswer};
ghost use Rattle.commit_core.specs.Parts.{CommitsToBlock, IsBlockAt, IsSameAnswer, IsSight};
ghost use Rattle.commit_core.specs.States.{IsHeldOf, block_at, holding_of};
ghost use Rattle.std.specs.List.{position};
ghost use Rattle.std.specs.Ordering.{int_eq};

use crate::{Answer, Core};
use kh_types::NoMemory;
use prime_field::PrimeField;
use prime_field::laws::element_laws;
use shared_block::laws::block_laws;
use shared_block::{BlockLook, BlockPatch, CommitAnswer, SharedBlock};
use std::alloc::Global;

impl<F: PrimeField> Core<F> {
    /// What is seen at a quantum degree: `None` where no block has it, `Some(None)` where the block
    /// is zero, else a look.
    pub(crate) fn sight(
        &self,
        alloc: Global,
        block: i16,
        hint: u32,
    ) -> Result<Option<Option<BlockLook<F>>>, NoMemory>
        ensures { IfOk result (IsSight F.P self.now block) }
    {
        element_laws::<F>();
        match self.place_of(block) {
            Some(place) => {
                let found = &self.blocks[place];
                block_laws(found);
                Ok(Some(found.look(alloc, hint)?))
            }
            None => Ok(None),
        }
    }

    /// Commits a patch that fits to the block at a quantum degree.
    pub(crate) fn commit_to(&mut self, block: i16, patch: BlockPatch<F>) -> Answer
        requires { IsHeldOf F.P self.old (holding_of block patch) }
        ensures { CommitsToBlock self.old block patch result self.new }
    {
        let Some(place) = self.place_of(block) else {
            unreachable!();
        };
        let answer = self.blocks[place].commit(patch);
        told(answer)
    }

    /// The place of the block at a quantum degree, if there is one.
    fn place_of(&self, block: i16) -> Option<usize>
        ensures { MatchOption result (block_at self.now block ≡ None)
            (IsBlockAt self.now block) }
    {
        place_of(&self.blocks, block)
    }
}

/// The place of the first block that has this quantum degree.
fn place_of<F: PrimeField>(blocks: &[SharedBlock<F>], degree: i16) -> Option<usize>
    ensures { result ≡ position (λ held. int_eq held.degree degree) blocks.now }
{
    blocks.iter().position(|held| held.degree() == degree)
}

/// The answer of a block that does not find the patch foreign.
fn told(answer: CommitAnswer) -> Answer
    requires { ¬ IsForeignAnswer answer }
    ensures { IsSameAnswer answer result }
{
    match answer {
        CommitAnswer::Committed { version } => Answer::Committed { version },
        CommitAnswer::Stale { looked, now } => Answer::Stale { looked, now },
        CommitAnswer::Foreign { .. } => unreachable!(),
    }
}
