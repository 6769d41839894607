//! The connected pieces of a diagram.

ghost use Rattle.std.specs.Prelude.{◌≡◌, ◌<◌, ◌≤◌, length, map};
ghost use Rattle.std.specs.List.{range_with_len};
ghost use Rattle.kh_types.specs.Classes.{IsNamed};
ghost use Rattle.kh_types.specs.Code.{IsCrossing};
ghost use Rattle.kh_types.specs.Darts.{dart_count, partner_at};
ghost use Rattle.kh_types.specs.Faces.{piece_pair, piece_count, pieces_of};
ghost use Rattle.kh_types.specs.declared.classes.TheConstants.{CLASS_MEMBERS};
ghost use Rattle.kh_types.specs.declared.limits.TheConstants.{CROSSINGS};
ghost use Rattle.face_walk.specs.FaceNumbers.{piece_number};

use crate::class_numbers::class_number;
use arrayvec::ArrayVec;
use kh_types::{CLASS_MEMBERS, Diagram, class_count, classes_of};

/// The number of connected pieces, in which arcs run from crossing to crossing. Loops count for
/// none.
pub fn pieces(diagram: &Diagram) -> u8
    ensures { result ≡ piece_count diagram.now.crossings }
{
    class_count(&pieces_of(diagram)) as u8
}

/// The piece that a crossing is in; crossings are numbered from 1, and pieces from 0 by their least
/// crossing.
pub fn piece_of(diagram: &Diagram, crossing: u8) -> u8
    requires { IsCrossing diagram.now.crossings crossing }
    ensures piece { result ≡ piece_number diagram.now.crossings crossing }
    ensures below { result < piece_count diagram.now.crossings }
{
    class_number(&pieces_of(diagram), crossing - 1)
}

/// The piece of each crossing, by the place of its least crossing.
fn pieces_of(diagram: &Diagram) -> ArrayVec<u8, CLASS_MEMBERS>
    ensures pieces { result.items ≡ pieces_of diagram.now.crossings }
    ensures named { IsNamed (length result.items) result.items }
    ensures size { length result.items ≡ length diagram.now.crossings }
    ensures few { length diagram.now.crossings ≤ CROSSINGS }
{
    let count = diagram.crossings().len();
    classes_of(count, &piece_pairs(diagram, 4 * count))
}

/// The places of the two crossings at the ends of the arc of each dart.
#[tactic(auto, using(kh_types::proofs::Ranges::range_steps))]
fn piece_pairs(diagram: &Diagram, count: usize) -> ArrayVec<(u8, u8), CLASS_MEMBERS>
    requires count { count ≡ dart_count diagram.now.crossings }
    requires few { count ≤ CLASS_MEMBERS }
    ensures { result.items
        ≡ map (piece_pair (partner_at diagram.now.crossings)) (range_with_len 0 count) }
{
    let mut pairs = ArrayVec::new();
    for place in 0..count {
        pairs.push(piece_pair(diagram, place as u8));
    }
    pairs
}

/// The places of the two crossings at the ends of a dart's arc.
fn piece_pair(diagram: &Diagram, place: u8) -> (u8, u8)
    requires { place < dart_count diagram.now.crossings }
    ensures { result ≡ piece_pair (partner_at diagram.now.crossings) place }
{
    (place / 4, diagram.partner_at(place) / 4)
}
