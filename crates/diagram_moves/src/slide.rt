//! A slide.

ghost use Rattle.std.specs.Prelude.{◌≡◌, ◌≤◌, ◌<◌, ◌+◌, None, length, map, slice_index};
ghost use Rattle.std.specs.List.{range_with_len};
ghost use Rattle.kh_types.specs.Directions.{positive_at};
ghost use Rattle.kh_types.specs.Code.{IsCrossing};
ghost use Rattle.kh_types.specs.Darts.{dart_count};
ghost use Rattle.slide_laws.specs.Slid.{corner, on, slid, slid_crossing, source, steps_from};
ghost use Rattle.diagram_moves.specs.Joinable.{AreReady};
ghost use Rattle.diagram_moves.specs.Kept.{slid_parts};
ghost use Rattle.diagram_moves.specs.MoveFaults.{slide_fault};
ghost use Rattle.diagram_moves.specs.Moved.{answered, slid_at, slid_from};
ghost use Rattle.diagram_moves.specs.SlideSteps.{AreDarts, IsSlidable, slid_arc, slid_parts_at};
ghost use Rattle.gluing_laws.specs.Codes.{arc_of_dart};

use crate::accepted::renumbered;
use crate::fault::MoveFault;
use crate::faults::slide_fault;
use crate::triangles::{Corners, dart_at_slot, step, taken_slot};
use arrayvec::ArrayVec;
use kh_types::laws::diagrams::diagram_laws;
use kh_types::{CROSSINGS, Crossing, Dart, Diagram};
use orient_arcs::Parts;

/// The three darts of a triangle, in the order of its face.
#[derive(Clone, Copy)]
struct Triangle {
    x: u8,
    y: u8,
    z: u8,
}

/// The diagram after a slide at three crossings, or the first fault.
pub(crate) fn slide(diagram: &Diagram, corners: Corners) -> Result<Diagram, MoveFault>
    ensures { result
        ≡ answered (slide_fault diagram.now corners.first corners.second corners.third)
        (slid_at diagram.now corners.first corners.second corners.third) }
{
    diagram_laws(diagram);
    match slide_fault(diagram, corners) {
        Some(fault) => Err(fault),
        None => Ok(slid_at(diagram, corners)),
    }
}

fn slid_at(diagram: &Diagram, corners: Corners) -> Diagram
    requires { IsSlidable diagram.now corners.first corners.second corners.third }
    ensures { result ≡ slid_at diagram.now corners.first corners.second corners.third }
{
    slid_from(diagram, corners.first, taken_slot(diagram, corners))
}

/// The diagram after a slide at the triangle of a slot of a crossing.
fn slid_from(diagram: &Diagram, crossing: u8, slot: u8) -> Diagram
    requires crossing { IsCrossing diagram.now.crossings crossing }
    requires slot { slot < 4 }
    requires ready { AreReady (slid_parts_at diagram.now crossing slot) }
    ensures { result ≡ slid_from diagram.now crossing slot }
{
    let x = dart_at_slot(diagram, crossing, slot);
    let y = step(diagram, x);
    let z = step(diagram, y);
    renumbered(&slid_parts(diagram, Triangle { x, y, z }))
}

/// The crossings after a slide, with the signs of before.
fn slid_parts(diagram: &Diagram, triangle: Triangle) -> Parts
    requires { AreDarts diagram.now.crossings triangle.x triangle.y triangle.z }
    ensures { result ≡ slid_parts diagram.now triangle.x triangle.y triangle.z }
{
    Parts {
        crossings: slid(diagram, triangle),
        positive: diagram.signs(),
        loops: diagram.loops(),
    }
}

#[tactic(auto, using(kh_types::proofs::Ranges::range_steps))]
fn slid(diagram: &Diagram, triangle: Triangle) -> ArrayVec<Crossing, CROSSINGS>
    requires { AreDarts diagram.now.crossings triangle.x triangle.y triangle.z }
    ensures { result.items ≡ slid diagram.now.crossings triangle.x triangle.y triangle.z }
{
    let mut crossings = ArrayVec::new();
    'places: for place in 0..diagram.count() {
        crossings.push(slid_crossing(diagram, triangle, place));
    }
    crossings
}

/// A crossing after the slide.
#[tactic(auto, using(crate::proofs::SlideLemmas::slid_four))]
fn slid_crossing(diagram: &Diagram, triangle: Triangle, place: u8) -> Crossing
    requires triangle { AreDarts diagram.now.crossings triangle.x triangle.y triangle.z }
    requires place { place < length diagram.now.crossings }
    ensures { result ≡ slid_crossing diagram.now.crossings triangle.x triangle.y triangle.z place }
{
    Crossing([
        slid_arc(diagram, triangle, place, 0),
        slid_arc(diagram, triangle, place, 1),
        slid_arc(diagram, triangle, place, 2),
        slid_arc(diagram, triangle, place, 3),
    ])
}

/// The arc at a slot of a crossing after the slide.
fn slid_arc(diagram: &Diagram, triangle: Triangle, place: u8, slot: u8) -> u8
    requires triangle { AreDarts diagram.now.crossings triangle.x triangle.y triangle.z }
    requires place { place < length diagram.now.crossings }
    requires slot { slot < 4 }
    ensures { result
        ≡ slid_arc diagram.now.crossings triangle.x triangle.y triangle.z place slot }
{
    diagram_laws(diagram);
    arc_of_dart(diagram, source(triangle, 4 * place + slot))
}

/// The arc of a dart; 0 where there is none.
fn arc_of_dart(diagram: &Diagram, dart: u8) -> u8
    ensures { result ≡ arc_of_dart diagram.now.crossings dart }
{
    match diagram.crossings().get(usize::from(dart / 4)) {
        Some(slots) => slots.0[usize::from(dart % 4)],
        None => 0,
    }
}

/// The dart whose arc comes to a dart.
fn source(triangle: Triangle, dart: u8) -> u8
    ensures { result ≡ source triangle.x triangle.y triangle.z dart }
{
    let Triangle { x, y, z } = triangle;
    if dart / 4 == x / 4 {
        corner(y, z, steps_from(x, dart))
    } else if dart / 4 == y / 4 {
        corner(z, x, steps_from(y, dart))
    } else if dart / 4 == z / 4 {
        corner(x, y, steps_from(z, dart))
    } else {
        dart
    }
}

/// The dart whose arc comes some slots on from a corner of the triangle, whose face goes on to one
/// dart and comes from another.
fn corner(next: u8, last: u8, steps: u8) -> u8
    requires { steps < 4 }
    ensures { result ≡ slice_index (corner next last) steps }
{
    [on(next, 3), on(last, 2), on(next, 1), last][usize::from(steps)]
}

/// How many slots a dart is on from another of the same crossing.
fn steps_from(from: u8, dart: u8) -> u8
    ensures steps { result ≡ steps_from from dart }
    ensures within { result < 4 }
{
    (dart % 4 + 4 - from % 4) % 4
}

/// The dart some slots on from a dart, round the same crossing.
fn on(dart: u8, steps: u8) -> u8
    requires { steps < 4 }
    ensures { result ≡ on dart steps }
{
    4 * (dart / 4) + (dart % 4 + steps) % 4
}
