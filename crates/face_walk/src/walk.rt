//! Walks round the faces of a diagram.

ghost use Rattle.std.specs.Prelude.{◌≡◌, ◌+◌, ◌<◌, ◌≤◌, length, slice_index, IsTrue};
ghost use Rattle.kh_types.specs.Acceptance.{accepted};
ghost use Rattle.kh_types.specs.Darts.{dart_count, face_step, partner_at};
ghost use Rattle.kh_types.specs.Faces.{faces_of};
ghost use Rattle.kh_types.specs.declared.limits.TheConstants.{CROSSINGS};
ghost use Rattle.kh_types.specs.Walks.{IsWalked};

use arrayvec::ArrayVec;
use kh_types::{CLASS_MEMBERS, Diagram, classes_of, is_least, turned};

/// The face of each dart, by the place of its least dart. Each face is walked once, from its least
/// dart.
#[tactic(auto, using(crate::proofs::FaceCycles::walks))]
pub fn faces_of(diagram: &Diagram) -> ArrayVec<u8, CLASS_MEMBERS>
    ensures faces { result.items ≡ faces_of diagram.now.crossings }
    ensures accepted { IsTrue (accepted diagram.now) }
    ensures few { length diagram.now.crossings ≤ CROSSINGS }
{
    let count = 4 * diagram.crossings().len();
    let mut classes = classes_of(count, &[]);
    'places: for place in 0..count {
        walk_once(diagram, &mut classes, place as u8);
    }
    classes
}

/// Walks the face of a dart, given by its place, where the dart is the least of it.
#[tactic(auto, using(crate::proofs::FaceCycles::walks))]
fn walk_once(diagram: &Diagram, classes: &mut [u8], least: u8)
    requires code { IsTrue (accepted diagram.now) }
    requires few { length diagram.now.crossings ≤ CROSSINGS }
    requires place { least < dart_count diagram.now.crossings }
    requires walked { IsWalked (faces_of diagram.now.crossings) classes.old least }
    ensures { IsWalked (faces_of diagram.now.crossings) classes.new (least + 1) }
{
    if is_least(classes, least) {
        walk_from(diagram, classes, least);
    }
}

/// Walks the face of a dart from its least dart, and puts all its darts into the class of that one.
fn walk_from(diagram: &Diagram, classes: &mut [u8], least: u8)
    requires code { IsTrue (accepted diagram.now) }
    requires few { length diagram.now.crossings ≤ CROSSINGS }
    requires place { least < dart_count diagram.now.crossings }
    requires walked { IsWalked (faces_of diagram.now.crossings) classes.old least }
    requires alone { slice_index classes.old least ≡ least }
    ensures { IsWalked (faces_of diagram.now.crossings) classes.new (least + 1) }
{
    let mut place = place_after(diagram, least);
    'walk: while place != least {
        classes[place as usize] = least;
        place = place_after(diagram, place);
    }
}

/// The place of the dart that follows in a face: from the other end of the arc on to the slot
/// before it.
fn place_after(diagram: &Diagram, place: u8) -> u8
    requires few { length diagram.now.crossings ≤ CROSSINGS }
    requires place { place < dart_count diagram.now.crossings }
    ensures { result ≡ face_step (partner_at diagram.now.crossings) place }
{
    turned(diagram.partner_at(place))
}
