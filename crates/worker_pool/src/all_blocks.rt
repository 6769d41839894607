//! The blocks of a diagram, cancelled to zero by the caller one after another, or by workers that
//! share them: then all blocks are open together, and the largest are begun first.

ghost use Rattle.std.specs.Prelude.{◌≡◌, ◌≤◌, All, IfOk, OnOk};
ghost use Rattle.std.specs.Arc.{arc_value};
ghost use Rattle.kh_types.specs.declared.limits.TheConstants.{WORKERS};
ghost use Rattle.worker_pool.specs.Outcomes.{AreBlocksAt, AreDegreesOf, AreDone};
ghost use Rattle.worker_pool.specs.Slots.{AreDoneSlots};

use crate::building::blocks_at;
use crate::crew::Crew;
use crate::done_slots::{DoneSlots, in_order, put};
use crate::finished::{Finished, done_alone, finished_one};
use crate::gate::Gate;
use crate::rows::{Pool, opened, take_last};
use crate::sharing::{Course, work_rows};
use crate::sizes::block_sizes;
use crate::slots::empty_slots;
use circle_smoothing::CountedDiagram;
use cube_signs::Cube;
use kh_types::NoMemory;
use prime_field::PrimeField;
use std::alloc::Global;
use std::sync::{Arc, Wait};
use std::thread::Threads;

/// The blocks at some quantum degrees, cancelled to zero by the caller alone, one after another.
pub(crate) fn finished_alone<F: PrimeField>(
    alloc: Global,
    cube: &Cube,
    degrees: &[i16],
) -> Result<Finished<F>, NoMemory>
    requires { AreDegreesOf cube.now degrees.now }
    ensures blocks { IfOk result (λ done. AreBlocksAt cube.now degrees.now done.blocks.items) }
    ensures done { IfOk result (AreDone F.P) }
    ensures alone { IfOk result (λ done. All (λ count. count ≡ 0) done.committed.items) }
{
    let mut done = Finished::new(alloc, degrees.len())?;
    'places: for k in 0..degrees.len() {
        done.push(done_alone(alloc, cube, degrees, k)?)?;
    }
    Ok(done)
}

/// The blocks at some quantum degrees, cancelled to zero by workers. How many states there are of
/// each kind says how large the blocks are, which no clause rests on.
#[tactic(auto, using(crate::proofs::SlotLemmas::done_slots_empty))]
pub(crate) fn finished_by_workers<
    R: Threads + Wait + Sync,
    F: PrimeField + Send + Sync,
    G: Gate + Sync,
>(
    crew: &Crew<R, G>,
    cube: &Arc<Cube>,
    degrees: &[i16],
    counted: &CountedDiagram,
) -> Result<Finished<F>, NoMemory>
    requires degrees { AreDegreesOf (arc_value cube.now) degrees.now }
    requires workers { crew.now.workers ≤ WORKERS }
    ensures blocks { IfOk result (λ done.
        AreBlocksAt (arc_value cube.now) degrees.now done.blocks.items) }
    ensures done { IfOk result (AreDone F.P) }
{
    let alloc = crew.alloc;
    let places = largest_first(alloc, &block_sizes(alloc, counted, degrees)?)?;
    let mut slots = empty_slots(alloc, degrees.len())?;
    put_all(crew, &mut slots, cube, degrees, &places)?;
    in_order(alloc, cube, degrees, slots)
}

/// The places of a list of sizes, those of the largest first.
fn largest_first(alloc: Global, sizes: &[u64]) -> Result<Vec<usize>, NoMemory> {
    let mut placed = Vec::with_capacity(alloc, sizes.len())?;
    'sizes: for size in sizes {
        placed.push((*size, placed.len()))?;
    }
    placed.sort()?;
    Ok(placed.iter().rev().map(|one| one.1).collect(alloc)?)
}

/// The degrees at some places.
fn degrees_at(
    alloc: Global,
    cube: &Cube,
    degrees: &[i16],
    places: &[usize],
) -> Result<Vec<i16>, NoMemory>
    requires { AreDegreesOf cube.now degrees.now }
    ensures { IfOk result (λ chosen. AreDegreesOf cube.now chosen.items) }
{
    let mut chosen = Vec::with_capacity(alloc, places.len())?;
    'places: for place in places {
        push_degree(&mut chosen, cube, degrees, *place)?;
    }
    Ok(chosen)
}

/// Puts the degree at a place, if there is one, at the end.
fn push_degree(
    chosen: &mut Vec<i16>,
    cube: &Cube,
    degrees: &[i16],
    place: usize,
) -> Result<(), NoMemory>
    requires degrees { AreDegreesOf cube.now degrees.now }
    requires chosen { AreDegreesOf cube.now chosen.old.items }
    ensures { OnOk result (AreDegreesOf cube.now chosen.new.items) }
{
    if place < degrees.len() {
        chosen.push(degrees[place])?;
    }
    Ok(())
}

/// Opens the blocks at some places of the quantum degrees, has workers reduce their columns,
/// finishes each, and puts it into the slot at its place.
fn put_all<R: Threads + Wait + Sync, F: PrimeField + Send + Sync, G: Gate + Sync>(
    crew: &Crew<R, G>,
    slots: &mut DoneSlots<F>,
    cube: &Arc<Cube>,
    degrees: &[i16],
    places: &[usize],
) -> Result<(), NoMemory>
    requires degrees { AreDegreesOf (arc_value cube.now) degrees.now }
    requires workers { crew.now.workers ≤ WORKERS }
    requires slots { AreDoneSlots F.P (arc_value cube.now) degrees.now slots.old.items }
    ensures { OnOk result (AreDoneSlots F.P (arc_value cube.now) degrees.now slots.new.items) }
{
    let (alloc, workers) = (crew.alloc, crew.workers as usize);
    let chosen = degrees_at(alloc, cube, degrees, places)?;
    let blocks = blocks_at(crew.rt, alloc, cube, &chosen, workers)?;
    let course = Course::new(alloc, blocks.len())?;
    let count = workers.min(blocks.len());
    let Pool {
        locks,
        kept,
        mut rows,
    } = opened(alloc, blocks, count)?;
    work_rows(crew, &locks, &course, rows.as_mut_slice());
    let mut pool = Pool { locks, kept, rows };
    'places: for place in places {
        let Some(block) = take_last(&mut pool) else {
            break;
        };
        put(slots, degrees, *place, finished_one(alloc, block)?);
    }
    Ok(())
}
