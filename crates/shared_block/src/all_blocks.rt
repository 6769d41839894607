//! The blocks of a diagram together.

ghost use Rattle.std.specs.Prelude.{◌≡◌, ◌≤◌, All, IfOk, OnOk};
ghost use Rattle.std.specs.List.{AllZip};
ghost use Rattle.circle_smoothing.specs.GeneratorCounts.{generator_count};
ghost use Rattle.circle_smoothing.specs.declared.limits.TheConstants.{GENERATORS};
ghost use Rattle.shared_block.specs.AllBlocks.{IsFinished, IsLaterOf, opening_blocks};

use crate::SharedBlock;
use cube_signs::Cube;
use kh_types::{Diagram, NoMemory};
use prime_field::PrimeField;
use std::alloc::Global;

/// The blocks of a diagram before any cancellation: one for each quantum degree that has a
/// generator, ascending.
pub fn blocks_of<F: PrimeField>(
    alloc: Global,
    diagram: &Diagram,
) -> Result<Vec<SharedBlock<F>>, NoMemory>
    requires { generator_count diagram.now ≤ GENERATORS }
    ensures { IfOk result (λ blocks. blocks.items ≡ opening_blocks diagram.now) }
{
    let cube = Cube::new(alloc, diagram)?;
    let degrees = cube.block_degrees(alloc)?;
    let mut blocks = Vec::with_capacity(alloc, degrees.len())?;
    'degrees: for k in 0..degrees.len() {
        blocks.push(SharedBlock::of_cube(alloc, &cube, degrees[k])?)?;
    }
    Ok(blocks)
}

/// Cancels blocks to zero, one after another. Where memory runs out, some cancellations have been
/// done.
pub fn finish_all<F: PrimeField>(
    alloc: Global,
    blocks: &mut [SharedBlock<F>],
) -> Result<(), NoMemory>
    ensures zero { OnOk result (All (IsFinished F.P) blocks.new) }
    ensures kept { AllZip IsLaterOf blocks.old blocks.new }
{
    'places: for k in 0..blocks.len() {
        blocks[k].finish(alloc)?;
    }
    Ok(())
}
