//! A kink that is added.

ghost use Rattle.std.specs.Prelude.{◌≡◌, ◌≤◌, ◌<◌, ◌+◌, length, map, not};
ghost use Rattle.std.specs.List.{range_with_len};
ghost use Rattle.kh_types.specs.Code.{IsArc};
ghost use Rattle.kh_types.specs.Darts.{arc_of};
ghost use Rattle.kh_types.specs.Directions.{positive_at};
ghost use Rattle.kh_types.specs.declared.limits.TheConstants.{CROSSINGS, ARCS};
ghost use Rattle.kink_and_finger_laws.specs.FingerAdd.{dart_with};
ghost use Rattle.kink_and_finger_laws.specs.KinkAdds.{kink_crossing, kinked_name, raised_crossings, with_kink};
ghost use Rattle.gluing_laws.specs.Arcs.{enters};
ghost use Rattle.diagram_moves.specs.AddSteps.{IsTakenArc, kinked_there};
ghost use Rattle.diagram_moves.specs.MoveFaults.{kink_add_fault};
ghost use Rattle.diagram_moves.specs.Moved.{answered};

use crate::accepted::accepted;
use crate::fault::MoveFault;
use crate::faults::kink_add_fault;
use arrayvec::ArrayVec;
use kh_types::laws::diagrams::diagram_laws;
use kh_types::{ARCS, CROSSINGS, Crossing, Dart, Diagram, RawCode};

/// A kink on an arc: whether its first pass is over, and whether its crossing is positive.
#[derive(Clone, Copy)]
pub(crate) struct Kink {
    pub arc: u8,
    pub is_over: bool,
    pub is_positive: bool,
}

/// The diagram with a kink, or the first fault.
#[tactic(auto, using(crate::proofs::AddLemmas::kinks_are_taken))]
pub(crate) fn add_kink(diagram: &Diagram, kink: Kink) -> Result<Diagram, MoveFault>
    ensures { result ≡ answered (kink_add_fault diagram.now kink.arc)
        (with_kink kink.is_over kink.is_positive kink.arc diagram.now) }
{
    match kink_add_fault(diagram, kink.arc) {
        Some(fault) => Err(fault),
        None => Ok(with_kink(diagram, kink)),
    }
}

#[tactic(auto, using(crate::proofs::AddLemmas::accepted_kinked))]
fn with_kink(diagram: &Diagram, kink: Kink) -> Diagram
    requires { IsTakenArc diagram.now kink.arc }
    ensures { result ≡ with_kink kink.is_over kink.is_positive kink.arc diagram.now }
{
    diagram_laws(diagram);
    accepted(&code_with_kink(diagram, kink))
}

fn code_with_kink(diagram: &Diagram, kink: Kink) -> RawCode
    requires { IsTakenArc diagram.now kink.arc }
    ensures { result ≡ with_kink kink.is_over kink.is_positive kink.arc diagram.now }
{
    let mut crossings = raised_crossings(diagram, kink.arc);
    crossings.push(kink_crossing(kink));
    RawCode {
        crossings,
        loops: diagram.loops(),
    }
}

/// The old crossings on the new arcs.
#[tactic(auto, using(crate::proofs::AddLemmas::kinked_more, crate::proofs::AddLemmas::length_kinked,))]
fn raised_crossings(diagram: &Diagram, arc: u8) -> ArrayVec<Crossing, CROSSINGS>
    requires { IsTakenArc diagram.now arc }
    ensures crossings { result.items ≡ raised_crossings arc diagram.now.crossings }
    ensures count { length result.items ≡ length diagram.now.crossings }
{
    let signs = diagram.signs();
    let mut crossings = ArrayVec::new();
    'crossings: for place in 0..diagram.count() {
        let is_positive = sign_there(&signs, diagram, place);
        crossings.push(moved_slots(diagram, arc, place, is_positive));
    }
    crossings
}

/// The crossing at a place, on the new arcs.
fn moved_slots(diagram: &Diagram, arc: u8, place: u8, is_positive: bool) -> Crossing
    requires arc { IsArc diagram.now.crossings arc }
    requires few { length diagram.now.crossings ≤ CROSSINGS }
    requires place { place < length diagram.now.crossings }
    requires sign { is_positive ≡ positive_at diagram.now.crossings place }
    ensures { result ≡ kinked_there diagram.now.crossings arc place }
{
    Crossing([
        moved_name(diagram, arc, is_positive, place, 0),
        moved_name(diagram, arc, is_positive, place, 1),
        moved_name(diagram, arc, is_positive, place, 2),
        moved_name(diagram, arc, is_positive, place, 3),
    ])
}

/// Whether the crossing at a place is positive, given this of each.
#[tactic(auto, using(crate::proofs::AddLemmas::length_signs))]
pub(crate) fn sign_there(signs: &[bool], diagram: &Diagram, place: u8) -> bool
    requires signs { signs.now
        ≡ map (positive_at diagram.now.crossings)
        (range_with_len 0 (length diagram.now.crossings)) }
    requires place { place < length diagram.now.crossings }
    ensures { result ≡ positive_at diagram.now.crossings place }
{
    diagram_laws(diagram);
    signs[usize::from(place)]
}

fn moved_name(diagram: &Diagram, arc: u8, is_positive: bool, place: u8, slot: u8) -> u8
    requires arc { IsArc diagram.now.crossings arc }
    requires few { length diagram.now.crossings ≤ CROSSINGS }
    requires place { place < length diagram.now.crossings }
    requires slot { slot < 4 }
    ensures { result ≡ kinked_name arc (enters is_positive slot)
        (arc_of diagram.now.crossings (dart_with (place + 1) slot)) }
{
    let dart = Dart {
        crossing: place + 1,
        slot,
    };
    kinked_name(arc, enters(is_positive, slot), diagram.arc_at(dart))
}

/// Whether an arc enters at a slot of a crossing that is positive or negative.
pub(crate) fn enters(is_positive: bool, slot: u8) -> bool
    ensures { result ≡ enters is_positive slot }
{
    slot == 0 || slot == if is_positive { 3 } else { 1 }
}

fn kinked_name(arc: u8, is_head: bool, other: u8) -> u8
    requires arc { arc ≤ ARCS }
    requires other { other ≤ ARCS }
    ensures { result ≡ kinked_name arc is_head other }
{
    if other == arc && is_head {
        arc + 2
    } else if arc < other {
        other + 2
    } else {
        other
    }
}

fn kink_crossing(kink: Kink) -> Crossing
    requires { kink.arc ≤ ARCS }
    ensures { result ≡ kink_crossing kink.is_over kink.is_positive kink.arc }
{
    let arc = kink.arc;
    match (kink.is_over, kink.is_positive) {
        (true, true) => Crossing([arc + 1, arc + 1, arc + 2, arc]),
        (true, false) => Crossing([arc + 1, arc, arc + 2, arc + 1]),
        (false, true) => Crossing([arc, arc + 2, arc + 1, arc + 1]),
        (false, false) => Crossing([arc, arc + 1, arc + 1, arc + 2]),
    }
}
