//! What the cancellation of all blocks of a diagram comes to.

ghost use Rattle.std.specs.Prelude.{◌≡◌};
ghost use Rattle.worker_pool.specs.Outcomes.{no_memory, size_limit};

use cube_signs::SizeLimit;
use homology_tables::Table;
use kh_types::NoMemory;
use prime_field::PrimeField;
use shared_block::SharedBlock;

/// What the cancellation of all blocks of a diagram comes to.
#[derive(Drop)]
pub struct Cancelled<F: PrimeField> {
    /// The homology table of the diagram, which is read from the blocks.
    pub table: Table,
    /// The blocks, one for each quantum degree that has a generator, ascending, each cancelled to
    /// zero by the history that it has.
    pub blocks: Vec<SharedBlock<F>>,
    /// For each block how many of its pivots, the first ones, workers committed; no clause says
    /// more of a count than that the block has as many pivots, and that one worker commits none.
    pub committed: Vec<u64>,
}

/// Why blocks were not cancelled.
#[derive(Clone, Copy, Debug, PartialEq, Eq)]
pub enum PoolStop {
    /// There are `generators`, which are more than `GENERATORS`.
    SizeLimit { generators: u128 },
    /// Out of memory, whatever the diagram is.
    NoMemory,
}

impl From<NoMemory> for PoolStop {
    ghost from_gives = { λ _ stop. stop ≡ no_memory };

    fn from(_: NoMemory) -> Self {
        PoolStop::NoMemory
    }
}

impl From<SizeLimit> for PoolStop {
    ghost from_gives = { λ limit stop. stop ≡ size_limit limit.generators };

    fn from(limit: SizeLimit) -> Self {
        PoolStop::SizeLimit {
            generators: limit.generators,
        }
    }
}
