//! The passes through crossings over arc names.

ghost use Rattle.std.specs.Prelude.{◌≡◌, ◌≤◌, ◌<◌, ◌+◌, ◌*◌, ◌++◌, length};
ghost use Rattle.kh_types.specs.declared.limits.TheConstants.{ARCS, CROSSINGS};
ghost use Rattle.code_passes.specs.Parts.{is_positive_at, over_pass, passes_at, passes_through, slots_in, under_pass};

use crate::parts::Parts;
use arrayvec::ArrayVec;
use code_passes::Pass;
use kh_types::{ARCS, CROSSINGS, Crossing};

/// All passes.
#[tactic(auto, using(crate::proofs::StepLemmas::passes_more, crate::proofs::StepLemmas::length_passes))]
pub(crate) fn passes_through(parts: &Parts) -> ArrayVec<Pass, ARCS>
    ensures passes { result.items ≡ passes_through parts.now }
    ensures size { length result.items ≡ 2 * length parts.now.crossings }
    ensures few { length result.items ≤ ARCS }
{
    let mut passes = ArrayVec::new();
    'places: for place in 0..parts.crossings.len() {
        push_passes(&mut passes, parts, place);
    }
    passes
}

fn push_passes(passes: &mut ArrayVec<Pass, ARCS>, parts: &Parts, place: usize)
    requires room { length passes.old.items + 2 ≤ ARCS }
    requires place { place < length parts.now.crossings }
    requires few { length parts.now.crossings ≤ CROSSINGS }
    ensures { passes.new.items ≡ passes.old.items ++ passes_at parts.now place }
{
    let slots = slots_in(parts, place);
    passes.push(under_pass(slots, place));
    passes.push(over_pass(slots, is_positive_at(parts, place), place));
}

/// The slots of the crossing at a place.
fn slots_in(parts: &Parts, place: usize) -> Crossing
    requires { place < length parts.now.crossings }
    ensures { result ≡ slots_in parts.now.crossings place }
{
    parts.crossings[place]
}

/// Whether the crossing at a place is positive.
fn is_positive_at(parts: &Parts, place: usize) -> bool
    ensures { result ≡ is_positive_at parts.now.positive place }
{
    parts.positive.get(place).copied().unwrap_or(false)
}

/// The under pass of a crossing.
fn under_pass(slots: Crossing, place: usize) -> Pass
    requires { place < CROSSINGS }
    ensures { result ≡ under_pass slots place }
{
    Pass {
        label: -(place as i32 + 1),
        enters: slots.0[0],
        leaves: slots.0[2],
    }
}

/// The over pass of a crossing.
fn over_pass(slots: Crossing, positive: bool, place: usize) -> Pass
    requires { place < CROSSINGS }
    ensures { result ≡ over_pass slots positive place }
{
    let label = place as i32 + 1;
    if positive {
        Pass {
            label,
            enters: slots.0[3],
            leaves: slots.0[1],
        }
    } else {
        Pass {
            label,
            enters: slots.0[1],
            leaves: slots.0[3],
        }
    }
}
