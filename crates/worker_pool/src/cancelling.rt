//! All blocks of a diagram, cancelled to zero by the caller alone or by workers.

ghost use Rattle.std.specs.Prelude.{◌≡◌, ◌↔◌, ◌<◌, ◌≤◌, All, IfOk};
ghost use Rattle.circle_smoothing.specs.GeneratorCounts.{generator_count};
ghost use Rattle.circle_smoothing.specs.declared.limits.TheConstants.{GENERATORS};
ghost use Rattle.cube_signs.specs.Blocks.{block_degrees};
ghost use Rattle.kh_types.specs.Table.{table};
ghost use Rattle.kh_types.specs.declared.limits.TheConstants.{WORKERS};
ghost use Rattle.shared_block.specs.BlockHistories.{HasLegalHistory};
ghost use Rattle.worker_pool.specs.Outcomes.{AreBlocksAt, AreCancelled, AreDone};
ghost use Rattle.worker_pool.specs.Outcomes.{IsSizeLimit, TellsCount};

use crate::all_blocks::{finished_alone, finished_by_workers};
use crate::crew::Crew;
use crate::finished::Finished;
use crate::gate::Gate;
use crate::outcome::{Cancelled, PoolStop};
use circle_smoothing::CountedDiagram;
use cube_signs::{Cube, SmallDiagram, counted_degrees};
use kh_types::{Diagram, NoMemory};
use prime_field::PrimeField;
use shared_block::laws::block_laws;
use shared_block::{SharedBlock, table_of};
use std::alloc::Global;
use std::sync::{Arc, Wait};
use std::thread::Threads;

/// Cancels all blocks of a diagram to zero, one after another on the caller's thread. This
/// project's rule.
pub fn cancel_alone<F: PrimeField>(
    alloc: Global,
    diagram: &Diagram,
) -> Result<Cancelled<F>, PoolStop>
    ensures limit { IsSizeLimit result ↔ (GENERATORS < generator_count diagram.now) }
    ensures count { TellsCount (generator_count diagram.now) result }
    ensures table { IfOk result (λ made. made.table ≡ table F.P diagram.now) }
    ensures blocks { IfOk result (AreCancelled F.P diagram.now) }
    ensures alone { IfOk result (λ made. All (λ count. count ≡ 0) made.committed.items) }
{
    let small = SmallDiagram::try_new(CountedDiagram::of_diagram(diagram))?;
    Ok(cancel_small_alone(alloc, &small)?)
}

/// The same, of a diagram whose cube is known to be within the limit.
#[tactic(auto, using(crate::proofs::DoneLemmas::none_stay))]
pub fn cancel_small_alone<F: PrimeField>(
    alloc: Global,
    small: &SmallDiagram,
) -> Result<Cancelled<F>, NoMemory>
    ensures table { IfOk result (λ made. made.table ≡ table F.P small.now) }
    ensures blocks { IfOk result (AreCancelled F.P small.now) }
    ensures alone { IfOk result (λ made. All (λ count. count ≡ 0) made.committed.items) }
{
    let counted = small.counted();
    let cube = Cube::new(alloc, counted.diagram())?;
    let degrees = counted_degrees(alloc, counted)?;
    let done = finished_alone(alloc, &cube, &degrees)?;
    with_table(alloc, cube.diagram(), done)
}

/// Cancels all blocks of a diagram to zero, by so many workers that share them; that they share the
/// work a test shows, and no clause. With one worker the caller does it, and no commit is counted.
pub fn cancel_all<R: Threads + Wait + Sync, F: PrimeField + Send + Sync, G: Gate + Sync>(
    rt: &R,
    alloc: Global,
    diagram: &Diagram,
    workers: u32,
    gate: &G,
) -> Result<Cancelled<F>, PoolStop>
    requires workers { (1 ≤ workers) × (workers ≤ WORKERS) }
    ensures limit { IsSizeLimit result ↔ (GENERATORS < generator_count diagram.now) }
    ensures count { TellsCount (generator_count diagram.now) result }
    ensures table { IfOk result (λ made. made.table ≡ table F.P diagram.now) }
    ensures blocks { IfOk result (AreCancelled F.P diagram.now) }
    ensures alone { workers ≡ 1 → IfOk result (λ made.
        All (λ count. count ≡ 0) made.committed.items) }
{
    let small = SmallDiagram::try_new(CountedDiagram::of_diagram(diagram))?;
    Ok(cancel_small(rt, alloc, &small, workers, gate)?)
}

/// The same, of a diagram whose cube is known to be within the limit.
pub fn cancel_small<R: Threads + Wait + Sync, F: PrimeField + Send + Sync, G: Gate + Sync>(
    rt: &R,
    alloc: Global,
    small: &SmallDiagram,
    workers: u32,
    gate: &G,
) -> Result<Cancelled<F>, NoMemory>
    requires workers { (1 ≤ workers) × (workers ≤ WORKERS) }
    ensures table { IfOk result (λ made. made.table ≡ table F.P small.now) }
    ensures blocks { IfOk result (AreCancelled F.P small.now) }
    ensures alone { workers ≡ 1 → IfOk result (λ made.
        All (λ count. count ≡ 0) made.committed.items) }
{
    if workers == 1 {
        return cancel_small_alone(alloc, small);
    }
    let counted = small.counted();
    let made = Cube::new(alloc, counted.diagram())?;
    let cube = Arc::new(alloc, made)?;
    let degrees = counted_degrees(alloc, counted)?;
    let crew = Crew {
        rt,
        alloc,
        workers,
        gate,
    };
    let done = finished_by_workers(&crew, &cube, &degrees, counted)?;
    with_table(alloc, cube.diagram(), done)
}

/// What blocks come to once they are cancelled to zero, with the table.
fn with_table<F: PrimeField>(
    alloc: Global,
    diagram: &Diagram,
    done: Finished<F>,
) -> Result<Cancelled<F>, NoMemory>
    requires size { generator_count diagram.now ≤ GENERATORS }
    requires blocks { AreBlocksAt diagram.now (block_degrees diagram.now) done.blocks.items }
    requires done { AreDone F.P done }
    ensures table { IfOk result (λ made. made.table ≡ table F.P diagram.now) }
    ensures blocks { IfOk result (AreCancelled F.P diagram.now) }
    ensures counts { IfOk result (λ made. made.committed.items ≡ done.committed.items) }
{
    let table = table_of(alloc, diagram, &done.blocks)?;
    legal_histories(&done.blocks);
    Ok(Cancelled {
        table,
        blocks: done.blocks,
        committed: done.committed,
    })
}

/// The histories of blocks are legal, which the type of each keeps.
fn legal_histories<F: PrimeField>(blocks: &[SharedBlock<F>])
    ensures { All (HasLegalHistory F.P) blocks.now }
{
    'places: for k in 0..blocks.len() {
        block_laws(&blocks[k]);
    }
}
