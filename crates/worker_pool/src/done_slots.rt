//! Slots for the blocks of a diagram that are cancelled to zero in any order, one slot at each
//! quantum degree.

ghost use Rattle.std.specs.Prelude.{◌≡◌, ◌<◌, IfOk, IfSome, None, Some, length, pos};
ghost use Rattle.std.specs.Prelude.{slice_index_or, slice_set};
ghost use Rattle.worker_pool.specs.Outcomes.{AreBlocksAt, AreDegreesOf, AreDone, IsDone};
ghost use Rattle.worker_pool.specs.Outcomes.{origin_of};
ghost use Rattle.worker_pool.specs.Slots.{AreDoneSlots, IsPlaceOf, StandInOrder};

use crate::finished::{DoneBlock, Finished, done_alone};
use crate::slots::take_slot;
use cube_signs::Cube;
use kh_types::NoMemory;
use prime_field::PrimeField;
use std::alloc::Global;

/// A slot for the block of each quantum degree, once it is cancelled to zero.
pub(crate) type DoneSlots<F> = Vec<Option<DoneBlock<F>>>;

/// Puts a block into the slot at a place, where that is the place of its degree; else the slots
/// stay as they are.
pub(crate) fn put<F: PrimeField>(
    slots: &mut DoneSlots<F>,
    degrees: &[i16],
    place: usize,
    one: DoneBlock<F>,
)
    requires done { IsDone F.P one }
    requires slots { AreDoneSlots F.P one.block.diagram degrees.now slots.old.items }
    ensures slots { AreDoneSlots F.P one.block.diagram degrees.now slots.new.items }
    ensures put { IsPlaceOf degrees.now place one
        → slots.new.items ≡ slice_set slots.old.items place (Some one) }
    ensures other { ¬ IsPlaceOf degrees.now place one → slots.new.items ≡ slots.old.items }
{
    if place >= degrees.len() || place >= slots.len() {
        return;
    }
    if degrees[place] == one.block.degree() {
        slots[place] = Some(one);
    }
}

/// The blocks in the order of their degrees: what is in the slots, and where a slot is empty a
/// block that the caller makes.
pub(crate) fn in_order<F: PrimeField>(
    alloc: Global,
    cube: &Cube,
    degrees: &[i16],
    mut slots: DoneSlots<F>,
) -> Result<Finished<F>, NoMemory>
    requires degrees { AreDegreesOf cube.now degrees.now }
    requires slots { AreDoneSlots F.P cube.now degrees.now slots.items }
    ensures blocks { IfOk result (λ done. AreBlocksAt cube.now degrees.now done.blocks.items) }
    ensures done { IfOk result (AreDone F.P) }
    ensures kept { IfOk result (StandInOrder slots.items) }
{
    let mut done = Finished::new(alloc, degrees.len())?;
    'places: for place in 0..degrees.len() {
        done.push(done_at(alloc, cube, degrees, &mut slots, place)?)?;
    }
    Ok(done)
}

/// The block at one place, out of its slot, or else made by the caller.
fn done_at<F: PrimeField>(
    alloc: Global,
    cube: &Cube,
    degrees: &[i16],
    slots: &mut DoneSlots<F>,
    place: usize,
) -> Result<DoneBlock<F>, NoMemory>
    requires degrees { AreDegreesOf cube.now degrees.now }
    requires place { place < length degrees.now }
    requires slots { AreDoneSlots F.P cube.now degrees.now slots.old.items }
    ensures slots { AreDoneSlots F.P cube.now degrees.now slots.new.items }
    ensures emptied { slots.new.items ≡ slice_set slots.old.items place None }
    ensures kept { IfOk result (λ one.
        IfSome (slice_index_or slots.old.items place None) (λ kept. one ≡ kept)) }
    ensures origin { IfOk result (λ one.
        origin_of one.block ≡ (cube.now, slice_index_or degrees.now place (pos 0))) }
    ensures done { IfOk result (IsDone F.P) }
{
    match take_slot(slots, place) {
        Some(one) => Ok(one),
        None => done_alone(alloc, cube, degrees, place),
    }
}
