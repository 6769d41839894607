//! How workers open the blocks of a diagram: each takes the next quantum degree that nobody has
//! begun.

ghost use Rattle.std.specs.Prelude.{◌≡◌, ◌<◌, ◌≤◌, [], All, IfOk, length, map, pos};
ghost use Rattle.std.specs.Prelude.{slice_index_or};
ghost use Rattle.std.specs.Arc.{arc_value};
ghost use Rattle.shared_block.specs.BlockHistories.{block_with};
ghost use Rattle.worker_pool.specs.Outcomes.{AreDegreesOf};
ghost use Rattle.worker_pool.specs.Slots.{AreEmpty, AreSlotsOf};

use crate::sharing::next_number;
use crate::slots::{empty_slots, take_slot};
use cube_signs::Cube;
use kh_types::NoMemory;
use prime_field::PrimeField;
use shared_block::ColumnBlock;
use std::alloc::Global;
use std::sync::Arc;
use std::sync::atomic::AtomicU64;
use std::thread;
use std::thread::Threads;

/// A slot for each block that a worker may build.
type Slots<F> = Vec<Option<ColumnBlock<F>>>;

/// The blocks at some quantum degrees before any cancellation, built by at most so many threads.
/// The first degrees are begun first.
pub(crate) fn blocks_at<R: Threads + Sync, F: PrimeField + Send + Sync>(
    rt: &R,
    alloc: Global,
    cube: &Arc<Cube>,
    degrees: &[i16],
    threads: usize,
) -> Result<Vec<ColumnBlock<F>>, NoMemory>
    requires { AreDegreesOf (arc_value cube.now) degrees.now }
    ensures { IfOk result (λ blocks.
        blocks.items ≡ map (λ j. block_with (arc_value cube.now) j []) degrees.now) }
{
    let mut made = empty_rows(alloc, threads.min(degrees.len()), degrees.len())?;
    let rows = made.as_mut_slice();
    build_rows(rt, alloc, cube, degrees, rows);
    picked(alloc, cube, degrees, rows)
}

/// So many rows with so many slots, all of them empty.
fn empty_rows<F: PrimeField>(
    alloc: Global,
    count: usize,
    slots: usize,
) -> Result<Vec<Slots<F>>, NoMemory>
    ensures { IfOk result (λ rows. All (λ row. AreEmpty slots row.items) rows.items) }
{
    let mut rows = Vec::with_capacity(alloc, count)?;
    'rows: for _ in 0..count {
        rows.push(empty_slots(alloc, slots)?)?;
    }
    Ok(rows)
}

/// Has the blocks built, by a thread for each row.
fn build_rows<R: Threads + Sync, F: PrimeField + Send + Sync>(
    rt: &R,
    alloc: Global,
    cube: &Arc<Cube>,
    degrees: &[i16],
    rows: &mut [Slots<F>],
)
    requires degrees { AreDegreesOf (arc_value cube.now) degrees.now }
    requires rows { All (λ row. AreSlotsOf (arc_value cube.now) degrees.now row.items) rows.old }
    ensures { All (λ row. AreSlotsOf (arc_value cube.now) degrees.now row.items) rows.new }
{
    let threads = rows.len();
    if threads == 0 {
        return;
    }
    let begun = AtomicU64::new(0);
    thread::for_each_mut(
        rt,
        rows,
        threads,
        &|_: usize, row: &mut Slots<F>|
            requires { (AreDegreesOf (arc_value cube.now) degrees.now) ×
                AreSlotsOf (arc_value cube.now) degrees.now row.now.items }
            ensures { AreSlotsOf (arc_value cube.entry.now) degrees.entry.now row.exit.now.items }
        { build_row(alloc, cube, degrees, &begun, row.as_mut_slice()) },
    );
}

/// What one thread builds.
fn build_row<F: PrimeField>(
    alloc: Global,
    cube: &Arc<Cube>,
    degrees: &[i16],
    begun: &AtomicU64,
    slots: &mut [Option<ColumnBlock<F>>],
)
    requires degrees { AreDegreesOf (arc_value cube.now) degrees.now }
    requires slots { AreSlotsOf (arc_value cube.now) degrees.now slots.old }
    ensures { AreSlotsOf (arc_value cube.now) degrees.now slots.new }
{
    'begun: for _ in 0..degrees.len() {
        let Some(place) = next_number(begun) else {
            return;
        };
        build_at(alloc, cube, degrees, slots, place);
    }
}

/// Builds one block. Where memory runs out its slot stays empty.
fn build_at<F: PrimeField>(
    alloc: Global,
    cube: &Arc<Cube>,
    degrees: &[i16],
    slots: &mut [Option<ColumnBlock<F>>],
    place: usize,
)
    requires degrees { AreDegreesOf (arc_value cube.now) degrees.now }
    requires slots { AreSlotsOf (arc_value cube.now) degrees.now slots.old }
    ensures { AreSlotsOf (arc_value cube.now) degrees.now slots.new }
{
    if place < degrees.len() && place < slots.len() {
        slots[place] = build_one(alloc, cube, degrees, place).ok();
    }
}

/// The block at one place.
pub(crate) fn build_one<F: PrimeField>(
    alloc: Global,
    cube: &Arc<Cube>,
    degrees: &[i16],
    place: usize,
) -> Result<ColumnBlock<F>, NoMemory>
    requires degrees { AreDegreesOf (arc_value cube.now) degrees.now }
    requires place { place < length degrees.now }
    ensures { IfOk result (λ held.
        held ≡ block_with (arc_value cube.now) (slice_index_or degrees.now place (pos 0)) []) }
{
    ColumnBlock::of_cube(alloc, cube, degrees[place])
}

/// The blocks out of the slots. What is missing is built.
fn picked<F: PrimeField>(
    alloc: Global,
    cube: &Arc<Cube>,
    degrees: &[i16],
    rows: &mut [Slots<F>],
) -> Result<Vec<ColumnBlock<F>>, NoMemory>
    requires degrees { AreDegreesOf (arc_value cube.now) degrees.now }
    requires rows { All (λ row. AreSlotsOf (arc_value cube.now) degrees.now row.items) rows.old }
    ensures { IfOk result (λ blocks.
        blocks.items ≡ map (λ j. block_with (arc_value cube.now) j []) degrees.now) }
{
    let mut blocks = Vec::with_capacity(alloc, degrees.len())?;
    'places: for place in 0..degrees.len() {
        blocks.push(block_at(alloc, cube, degrees, rows, place)?)?;
    }
    Ok(blocks)
}

/// The block at one place, out of a slot or built.
fn block_at<F: PrimeField>(
    alloc: Global,
    cube: &Arc<Cube>,
    degrees: &[i16],
    rows: &mut [Slots<F>],
    place: usize,
) -> Result<ColumnBlock<F>, NoMemory>
    requires degrees { AreDegreesOf (arc_value cube.now) degrees.now }
    requires place { place < length degrees.now }
    requires rows { All (λ row. AreSlotsOf (arc_value cube.now) degrees.now row.items) rows.old }
    ensures rows { All (λ row. AreSlotsOf (arc_value cube.now) degrees.now row.items) rows.new }
    ensures block { IfOk result (λ held.
        held ≡ block_with (arc_value cube.now) (slice_index_or degrees.now place (pos 0)) []) }
{
    'rows: for row in rows.iter_mut() {
        if let Some(held) = take_slot(row, place) {
            return Ok(held);
        }
    }
    build_one(alloc, cube, degrees, place)
}
