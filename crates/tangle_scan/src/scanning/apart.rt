//! The pieces of a diagram apart: the first, and the others.

ghost use Rattle.std.specs.Prelude.{◌≡◌, ◌≤◌, ◌<◌, ◌++◌, [], ◌∷◌, All, if◌then◌else◌, length, map};
ghost use Rattle.kh_types.specs.Directions.{positive_at};
ghost use Rattle.kh_types.specs.Faces.{piece_count};
ghost use Rattle.kh_types.specs.declared.limits.TheConstants.{CROSSINGS};
ghost use Rattle.code_passes.specs.Parts.{slots_in};
ghost use Rattle.union_laws.specs.Pieces.{first_piece, kept_parts, kept_places, other_pieces, part_of};
ghost use Rattle.tangle_scan.specs.Sides.{is_on_side};

use arrayvec::ArrayVec;
use face_walk::piece_of;
use kh_types::laws::diagrams::diagram_laws;
use kh_types::{CROSSINGS, Crossing, Diagram};
use orient_arcs::{Parts, renumber};
use union_laws::laws::pieces::{parts_are_accepted, pieces_share_no_arc};

/// The places of some crossings.
type Places = ArrayVec<u8, CROSSINGS>;

/// The first piece of a diagram, that of its first crossing, without loops; and the others, with
/// all loops.
#[inline(never)]
pub(crate) fn pieces_apart(diagram: &Diagram) -> (Diagram, Diagram)
    requires { 0 < piece_count diagram.now.crossings }
    ensures first { result.0 ≡ first_piece diagram.now }
    ensures others { result.1 ≡ other_pieces diagram.now }
    ensures fewer { length result.1.crossings < length diagram.now.crossings }
{
    diagram_laws(diagram);
    pieces_share_no_arc();
    (
        side(diagram, true, 0),
        side(diagram, false, diagram.loops()),
    )
}

/// The first piece or all others, with some of the loops.
fn side(diagram: &Diagram, is_first: bool, loops: u8) -> Diagram
    requires { loops ≤ diagram.now.loops }
    ensures { result ≡ part_of (is_on_side is_first diagram.now.crossings) diagram.now loops }
{
    diagram_laws(diagram);
    pieces_share_no_arc();
    parts_are_accepted();
    Diagram::of_accepted(&renumber(&side_parts(diagram, is_first, loops)))
}

/// Its crossings over the arcs of the diagram, each with its sign.
fn side_parts(diagram: &Diagram, is_first: bool, loops: u8) -> Parts
    ensures { result ≡ kept_parts (is_on_side is_first diagram.now.crossings) diagram.now loops }
{
    let places = side_places(diagram, is_first);
    Parts {
        crossings: crossings_at(diagram, &places),
        positive: signs_at(diagram, &places),
        loops,
    }
}

/// The places of the crossings that are in the first piece, or of those that are not.
fn side_places(diagram: &Diagram, is_first: bool) -> Places
    ensures places { result.items
        ≡ kept_places (is_on_side is_first diagram.now.crossings) diagram.now.crossings }
    ensures within { All (λ place. place < length diagram.now.crossings) result.items }
{
    let mut places = ArrayVec::new();
    'places: for place in 0..diagram.count() {
        push_if(&mut places, place, is_on_side(diagram, is_first, place));
    }
    places
}

/// Adds a place, if it is kept.
fn push_if(places: &mut Places, place: u8, is_kept: bool)
    requires { length places.old.items < CROSSINGS }
    ensures { places.new.items ≡ places.old.items ++ (if is_kept then place ∷ [] else []) }
{
    if is_kept {
        places.push(place);
    }
}

/// Whether a crossing is in the first piece, or whether it is not.
fn is_on_side(diagram: &Diagram, is_first: bool, place: u8) -> bool
    requires { place < length diagram.now.crossings }
    ensures { result ≡ is_on_side is_first diagram.now.crossings place }
{
    diagram_laws(diagram);
    let is_in_first = piece_of(diagram, place + 1) == 0;
    if is_first { is_in_first } else { !is_in_first }
}

/// The crossings at some places.
#[tactic(auto, using(orient_arcs::proofs::StepLemmas::map_take_more))]
fn crossings_at(diagram: &Diagram, places: &[u8]) -> ArrayVec<Crossing, CROSSINGS>
    requires few { length places.now ≤ CROSSINGS }
    requires within { All (λ place. place < length diagram.now.crossings) places.now }
    ensures { result.items ≡ map (slots_in diagram.now.crossings) places.now }
{
    let mut crossings = ArrayVec::new();
    'places: for at in 0..places.len() {
        crossings.push(diagram.crossings()[usize::from(places[at])]);
    }
    crossings
}

/// Whether each of the crossings at some places is positive.
#[tactic(auto, using(orient_arcs::proofs::StepLemmas::map_take_more))]
fn signs_at(diagram: &Diagram, places: &[u8]) -> ArrayVec<bool, CROSSINGS>
    requires few { length places.now ≤ CROSSINGS }
    requires within { All (λ place. place < length diagram.now.crossings) places.now }
    ensures { result.items ≡ map (positive_at diagram.now.crossings) places.now }
{
    let mut positive = ArrayVec::new();
    'places: for at in 0..places.len() {
        positive.push(is_positive(diagram, places[at]));
    }
    positive
}

/// Whether the crossing at a place is positive.
fn is_positive(diagram: &Diagram, place: u8) -> bool
    requires { place < length diagram.now.crossings }
    ensures { result ≡ positive_at diagram.now.crossings place }
{
    diagram_laws(diagram);
    diagram.sign(place + 1) > 0
}
