//! A finger that is added.

ghost use Rattle.std.specs.Prelude.{◌≡◌, ◌≢◌, ◌≤◌, ◌<◌, ◌+◌, length, not, nat_eq, IsTrue};
ghost use Rattle.kh_types.specs.Acceptance.{accepted};
ghost use Rattle.kh_types.specs.Code.{IsArc, IsCrossing};
ghost use Rattle.kh_types.specs.Darts.{IsDart};
ghost use Rattle.kh_types.specs.Directions.{is_positive};
ghost use Rattle.kh_types.specs.declared.limits.TheConstants.{CROSSINGS, ARCS};
ghost use Rattle.kink_and_finger_laws.specs.FingerAdd.{crossing_with, differ, first_crossing, head_number, moved_arc, moved_crossings, moved_slots, opened, second_crossing, with_finger};
ghost use Rattle.diagram_moves.specs.AddSteps.{AreTakenArcs};
ghost use Rattle.diagram_moves.specs.MoveFaults.{finger_add_fault, wrong_genus};
ghost use Rattle.diagram_moves.specs.Moved.{answered, is_left};

use crate::accepted::accepted;
use crate::change::Side;
use crate::fault::MoveFault;
use crate::faults::{finger_place_fault, wrong_genus};
use crate::kink_add::{enters, sign_there};
use arrayvec::ArrayVec;
use kh_types::laws::diagrams::diagram_laws;
use kh_types::{ARCS, CROSSINGS, Crossing, Dart, Diagram, RawCode};

/// A finger of an arc over another, through the face at a side of each.
#[derive(Clone, Copy)]
pub(crate) struct Finger {
    pub over: u8,
    pub over_left: bool,
    pub under: u8,
    pub under_left: bool,
}

/// Whether a side is the left one.
pub(crate) fn is_left(side: Side) -> bool
    ensures { result ≡ is_left side }
{
    match side {
        Side::Left => true,
        Side::Right => false,
    }
}

/// The diagram with a finger, or the first fault.
#[tactic(auto, using(crate::proofs::AddLemmas::fingers_are_taken))]
pub(crate) fn add_finger(diagram: &Diagram, finger: Finger) -> Result<Diagram, MoveFault>
    ensures { result
        ≡ answered
        (finger_add_fault diagram.now finger.over finger.over_left finger.under finger.under_left)
        (with_finger diagram.now finger.over finger.over_left finger.under finger.under_left) }
{
    match finger_place_fault(diagram, finger.over, finger.under) {
        Some(fault) => Err(fault),
        None => with_finger(diagram, finger),
    }
}

/// The diagram with a finger whose arcs can be taken, or the fault of the faces.
#[tactic(auto, using(crate::proofs::AddLemmas::fingers_on_the_sphere_are_accepted))]
fn with_finger(diagram: &Diagram, finger: Finger) -> Result<Diagram, MoveFault>
    requires { AreTakenArcs diagram.now finger.over finger.under }
    ensures { result
        ≡ answered (wrong_genus (with_finger diagram.now finger.over finger.over_left
        finger.under finger.under_left).crossings)
        (with_finger diagram.now finger.over finger.over_left finger.under finger.under_left) }
{
    diagram_laws(diagram);
    let code = code_with_finger(diagram, finger);
    match wrong_genus(&code) {
        Some(fault) => Err(fault),
        None => Ok(accepted(&code)),
    }
}

fn code_with_finger(diagram: &Diagram, finger: Finger) -> RawCode
    requires { AreTakenArcs diagram.now finger.over finger.under }
    ensures { result
        ≡ with_finger diagram.now finger.over finger.over_left finger.under finger.under_left }
{
    let mut crossings = moved_crossings(diagram, finger);
    let pass = Passing {
        over: opened(finger, finger.over),
        under: opened(finger, finger.under),
        is_positive: finger.under_left,
        in_order: finger.over_left != finger.under_left,
    };
    crossings.push(first_crossing(pass));
    crossings.push(second_crossing(pass));
    RawCode {
        crossings,
        loops: diagram.loops(),
    }
}

/// The two new crossings: the over arc goes on from a number, the under arc from another; the first
/// crossing is positive or negative, and the under arc passes it first or second.
#[derive(Clone, Copy)]
struct Passing {
    over: u8,
    under: u8,
    is_positive: bool,
    in_order: bool,
}

/// The old crossings on the new arcs.
#[tactic(auto, using(crate::proofs::AddLemmas::fingered_more, crate::proofs::AddLemmas::length_fingered,))]
fn moved_crossings(diagram: &Diagram, finger: Finger) -> ArrayVec<Crossing, CROSSINGS>
    requires { AreTakenArcs diagram.now finger.over finger.under }
    ensures crossings { result.items
        ≡ moved_crossings diagram.now.crossings finger.over finger.under }
    ensures count { length result.items ≡ length diagram.now.crossings }
{
    let signs = diagram.signs();
    let mut crossings = ArrayVec::new();
    'crossings: for place in 0..diagram.count() {
        let positive = sign_there(&signs, diagram, place);
        crossings.push(moved_slots(diagram, finger, place + 1, positive));
    }
    crossings
}

/// A crossing on the new arcs.
fn moved_slots(diagram: &Diagram, finger: Finger, crossing: u8, positive: bool) -> Crossing
    requires arcs { AreTakenArcs diagram.now finger.over finger.under }
    requires crossing { IsCrossing diagram.now.crossings crossing }
    requires sign { positive ≡ is_positive diagram.now.crossings crossing }
    ensures { result ≡ moved_slots diagram.now.crossings finger.over finger.under crossing }
{
    Crossing([
        moved_arc(diagram, finger, Dart { crossing, slot: 0 }, positive),
        moved_arc(diagram, finger, Dart { crossing, slot: 1 }, positive),
        moved_arc(diagram, finger, Dart { crossing, slot: 2 }, positive),
        moved_arc(diagram, finger, Dart { crossing, slot: 3 }, positive),
    ])
}

/// The new arc at a dart of an old crossing that is positive or negative.
fn moved_arc(diagram: &Diagram, finger: Finger, dart: Dart, positive: bool) -> u8
    requires arcs { AreTakenArcs diagram.now finger.over finger.under }
    requires dart { IsDart diagram.now.crossings dart }
    requires sign { positive ≡ is_positive diagram.now.crossings dart.crossing }
    ensures { result ≡ moved_arc diagram.now.crossings finger.over finger.under dart }
{
    diagram_laws(diagram);
    let arc = diagram.arc_at(dart);
    if enters(positive, dart.slot) {
        head_number(finger, arc)
    } else {
        opened(finger, arc)
    }
}

/// The number of an old arc, and of its tail.
fn opened(finger: Finger, arc: u8) -> u8
    requires { arc ≤ ARCS }
    ensures opened { result ≡ opened finger.over finger.under arc }
    ensures within { result ≤ ARCS + 4 }
{
    let over = if finger.over < arc { 2 } else { 0 };
    let under = if finger.under < arc { 2 } else { 0 };
    arc + over + under
}

/// The number at the head of an old arc.
fn head_number(finger: Finger, arc: u8) -> u8
    requires { arc ≤ ARCS }
    ensures { result ≡ head_number finger.over finger.under arc }
{
    let more = if arc == finger.over || arc == finger.under {
        2
    } else {
        0
    };
    opened(finger, arc) + more
}

fn first_crossing(pass: Passing) -> Crossing
    requires over { pass.over ≤ ARCS + 4 }
    requires under { pass.under ≤ ARCS + 4 }
    ensures { result ≡ first_crossing pass.over pass.under pass.is_positive pass.in_order }
{
    let under = pass.under;
    let (from, to) = if pass.in_order {
        (under, under + 1)
    } else {
        (under + 1, under + 2)
    };
    crossing_with(pass.is_positive, (from, to), (pass.over, pass.over + 1))
}

fn second_crossing(pass: Passing) -> Crossing
    requires over { pass.over ≤ ARCS + 4 }
    requires under { pass.under ≤ ARCS + 4 }
    ensures { result ≡ second_crossing pass.over pass.under pass.is_positive pass.in_order }
{
    let under = pass.under;
    let (from, to) = if pass.in_order {
        (under + 1, under + 2)
    } else {
        (under, under + 1)
    };
    crossing_with(
        !pass.is_positive,
        (from, to),
        (pass.over + 1, pass.over + 2),
    )
}

/// The crossing of an under pass and an over pass, each given by the arcs from which and to which
/// it goes.
fn crossing_with(is_positive: bool, under: (u8, u8), over: (u8, u8)) -> Crossing
    ensures { result ≡ crossing_with is_positive under.0 under.1 over.0 over.1 }
{
    if is_positive {
        Crossing([under.0, over.1, under.1, over.0])
    } else {
        Crossing([under.0, over.0, under.1, over.1])
    }
}
