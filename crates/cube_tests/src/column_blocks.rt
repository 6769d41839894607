//! Blocks whose columns are reduced by looks and commits: they have the pivots that one call finds,
//! in the order of degrees from the least up.

ghost use Rattle.std.specs.Prelude.{◌≤◌};
ghost use Rattle.std.specs.List.{Contains};
ghost use Rattle.circle_smoothing.specs.GeneratorCounts.{generator_count};
ghost use Rattle.circle_smoothing.specs.declared.limits.TheConstants.{GENERATORS};
ghost use Rattle.cube_signs.specs.Blocks.{block_degrees};

use cube_signs::{Cube, block_degrees, check_size};
use kh_types::{Diagram, NoMemory};
use known_links::{FIGURE_EIGHT, TORUS_KNOT, TREFOIL, diagram_of};
use prime_field::{F2, F3, PrimeField};
use shared_block::{ColumnBlock, SharedBlock};
use sparse_block::Pivot;
use std::alloc::Global;
use std::process::Abort;
use std::sync::Arc;
use std::test::Fail;
use version_lock::Held;

/// The knot 10_123, as the closed braid (s1 s2^-1)^5, whose blocks are larger.
const TEN_CROSSINGS: &[[u8; 4]] = &[
    [8, 2, 9, 1],
    [2, 15, 3, 16],
    [16, 10, 17, 9],
    [10, 3, 11, 4],
    [4, 18, 5, 17],
    [18, 11, 19, 12],
    [12, 6, 13, 5],
    [6, 19, 7, 20],
    [20, 14, 1, 13],
    [14, 7, 15, 8],
];

/// How many looks are committed before a block is finished; the last is more than a block has.
const TURNS: [u64; 4] = [0, 1, 5, 100_000];

#[test]
fn looks_and_commits_find_the_pivots_of_one_call(rt: HostRuntime) -> Result<(), Fail> {
    for crossings in [TREFOIL, FIGURE_EIGHT, TORUS_KNOT, TEN_CROSSINGS] {
        let diagram = diagram_of(crossings, 0)?;
        check_blocks::<F2>(&rt, rt.alloc(), &diagram)?;
        check_blocks::<F3>(&rt, rt.alloc(), &diagram)?;
    }
    Ok(())
}

/// Reduces each block of a diagram.
fn check_blocks<F: PrimeField + Send>(
    rt: &impl Abort,
    alloc: Global,
    diagram: &Diagram,
) -> Result<(), Fail> {
    check_size(diagram)?;
    let degrees = block_degrees(alloc, diagram)?;
    for k in 0..degrees.len() {
        check_block::<F>(rt, alloc, diagram, degrees[k])?;
    }
    Ok(())
}

/// Reduces a block by some looks and then by one call, and compares it with the block that one call
/// reduces from the start.
fn check_block<F: PrimeField + Send>(
    rt: &impl Abort,
    alloc: Global,
    diagram: &Diagram,
    j: i16,
) -> Result<(), Fail>
    requires size { generator_count diagram.now ≤ GENERATORS }
    requires degree { Contains (block_degrees diagram.now) j }
{
    let whole = SharedBlock::<F>::finished(alloc, &Cube::new(alloc, diagram)?, j)?;
    for turns in TURNS {
        let mut block = opened::<F>(alloc, diagram, j)?;
        take_turns(rt, alloc, &mut block, turns)?;
        let made = block.finish(alloc)?;
        assert!(rt; made.is_zero());
        assert!(rt; ascend(made.history()));
        assert_eq!(rt;
            sorted(alloc, made.history())?,
            sorted(alloc, whole.history())?
        );
    }
    Ok(())
}

/// The block at a quantum degree, of which no column is reduced yet.
fn opened<F: PrimeField>(
    alloc: Global,
    diagram: &Diagram,
    j: i16,
) -> Result<ColumnBlock<F>, NoMemory>
    requires size { generator_count diagram.now ≤ GENERATORS }
    requires degree { Contains (block_degrees diagram.now) j }
{
    let made = Cube::new(alloc, diagram)?;
    let cube = Arc::new(alloc, made)?;
    ColumnBlock::of_cube(alloc, &cube, j)
}

/// Looks and commits so often, or until nothing is left.
fn take_turns<F: PrimeField + Send>(
    rt: &impl Abort,
    alloc: Global,
    block: &mut ColumnBlock<F>,
    turns: u64,
) -> Result<(), Fail> {
    for _ in 0..turns {
        let Some(look) = block.look_at(alloc, 0)? else {
            return Ok(());
        };
        assert_eq!(rt; look.version(), block.version());
        block.take(look);
    }
    Ok(())
}

/// Whether no pivot's degree is less than that of the one before it.
fn ascend(history: &[Pivot]) -> bool {
    let mut last = i16::MIN;
    for pivot in history {
        if pivot.degree < last {
            return false;
        }
        last = pivot.degree;
    }
    true
}

/// The degree, column and row of each pivot, ascending.
fn sorted(alloc: Global, history: &[Pivot]) -> Result<Vec<(i16, u32, u32)>, NoMemory> {
    let mut places = Vec::with_capacity(alloc, history.len())?;
    for pivot in history {
        places.push((pivot.degree, pivot.column, pivot.row))?;
    }
    places.sort()?;
    Ok(places)
}
