//! Faces and connected pieces.

ghost use Rattle.std.specs.Prelude.{◌≡◌, ◌≤◌, ◌<◌, ◌*◌, length};
ghost use Rattle.kh_types.specs.declared.limits.TheConstants.{CROSSINGS};
ghost use Rattle.kh_types.specs.Darts.{partner_at};
ghost use Rattle.kh_types.specs.Faces.{face_pair, piece_pair, faces_of, face_count, pieces_of, piece_count, planar_face_count};
ghost use Rattle.kh_types.specs.Acceptance.{genus_fault};

use crate::acceptance::darts::partner_at;
use crate::classes::{CLASS_MEMBERS, class_count, classes_of};
use crate::code::Crossing;
use crate::dart::turned;
use crate::fault::CodeFault;
use crate::limits::CROSSINGS;
use arrayvec::ArrayVec;

/// The fault of a code whose number of faces is not that of a drawing on the sphere.
pub fn genus_fault(crossings: &[Crossing]) -> Option<CodeFault>
    requires { length crossings.now ≤ CROSSINGS }
    ensures { result ≡ genus_fault crossings.now }
{
    let faces = face_count(crossings);
    let wanted = planar_face_count(crossings);
    if faces == wanted {
        None
    } else {
        Some(CodeFault::Genus { faces, wanted })
    }
}

/// The number of faces; loops count for none.
pub fn face_count(crossings: &[Crossing]) -> u8
    requires { length crossings.now ≤ CROSSINGS }
    ensures { result ≡ face_count crossings.now }
{
    class_count(&faces_of(crossings)) as u8
}

/// The number of faces of a drawing on the sphere.
pub fn planar_face_count(crossings: &[Crossing]) -> u8
    requires { length crossings.now ≤ CROSSINGS }
    ensures { result ≡ planar_face_count crossings.now }
{
    crossings.len() as u8 + 2 * class_count(&pieces_of(crossings)) as u8
}

/// The face of each dart, by the place of its least dart.
#[tactic(auto, using(crate::proofs::Ranges::range_steps))]
fn faces_of(crossings: &[Crossing]) -> ArrayVec<u8, CLASS_MEMBERS>
    requires { length crossings.now ≤ CROSSINGS }
    ensures { result.items ≡ faces_of crossings.now }
{
    let mut pairs: ArrayVec<(u8, u8), CLASS_MEMBERS> = ArrayVec::new();
    for place in 0..4 * crossings.len() {
        pairs.push(face_pair(crossings, place as u8));
    }
    classes_of(4 * crossings.len(), &pairs)
}

/// The places of a dart and of the one that follows in its face.
fn face_pair(crossings: &[Crossing], place: u8) -> (u8, u8)
    requires crossings { length crossings.now ≤ CROSSINGS }
    requires place { place < 4 * length crossings.now }
    ensures { result ≡ face_pair (partner_at crossings.now) place }
{
    (place, turned(partner_at(crossings, place)))
}

/// The connected piece of each crossing, by the place of its least crossing.
#[tactic(auto, using(crate::proofs::Ranges::range_steps))]
fn pieces_of(crossings: &[Crossing]) -> ArrayVec<u8, CLASS_MEMBERS>
    requires { length crossings.now ≤ CROSSINGS }
    ensures { result.items ≡ pieces_of crossings.now }
{
    let mut pairs: ArrayVec<(u8, u8), CLASS_MEMBERS> = ArrayVec::new();
    for place in 0..4 * crossings.len() {
        pairs.push(piece_pair(crossings, place as u8));
    }
    classes_of(crossings.len(), &pairs)
}

/// The places of the two crossings at the ends of a dart's arc.
fn piece_pair(crossings: &[Crossing], place: u8) -> (u8, u8)
    requires crossings { length crossings.now ≤ CROSSINGS }
    requires place { place < 4 * length crossings.now }
    ensures { result ≡ piece_pair (partner_at crossings.now) place }
{
    (place / 4, partner_at(crossings, place) / 4)
}
