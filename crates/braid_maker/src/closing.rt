//! The closure of a braid.

ghost use Rattle.std.specs.Prelude.{◌≡◌, ◌≤◌, ◌<◌, ◌+◌, ◌*◌, length, IsTrue};
ghost use Rattle.std.specs.List.{count_by, find, range_with_len};
ghost use Rattle.kh_types.specs.Acceptance.{accepted};
ghost use Rattle.braid_maker.specs.Braids.{is_straight, left_of, lower_left_is_over};
ghost use Rattle.braid_maker.specs.Closures.{AreLetters, closure, closure_parts, is_bottom, arc_name, named_crossing, straight_count};
ghost use Rattle.braid_maker.specs.declared.limits.TheConstants.{LETTERS, STRANDS};

use crate::limits::{LETTERS, STRANDS};
use crate::rising::{crossing_of, is_bottom, is_straight, passes_over};
use arrayvec::ArrayVec;
use kh_types::{Crossing, RawCode};
use orient_arcs::{Parts, renumber};

/// The code of the closed braid of some letters on some strands, at most `LETTERS` and `STRANDS`;
/// its crossings stand in the order of the letters. The letter m lets the strand at the position m
/// pass over to m + 1, and -m lets it pass under. A strand without a crossing is a loop.
pub fn closure(strands: u8, letters: &[i8]) -> RawCode
    requires strands { strands ≤ STRANDS }
    requires few { length letters.now ≤ LETTERS }
    requires letters { AreLetters strands letters.now }
    ensures code { result ≡ closure strands letters.now }
    ensures accepted { IsTrue (accepted result) }
{
    renumber(&closure_parts(strands, letters))
}

/// The crossings under the names of their arcs, with their directions, and the loops.
#[tactic(auto, using(kh_types::proofs::Ranges::range_steps))]
fn closure_parts(strands: u8, letters: &[i8]) -> Parts
    requires strands { strands ≤ STRANDS }
    requires few { length letters.now ≤ LETTERS }
    ensures { result ≡ closure_parts strands letters.now }
{
    let mut crossings = ArrayVec::new();
    let mut positive = ArrayVec::new();
    'places: for place in 0..letters.len() {
        crossings.push(named_crossing(strands, letters, place));
        positive.push(passes_over(letters, place));
    }
    Parts {
        crossings,
        positive,
        loops: straight_count(strands, letters),
    }
}

/// The crossing at a place under the names of its arcs.
fn named_crossing(strands: u8, letters: &[i8], place: usize) -> Crossing
    requires strands { strands ≤ STRANDS }
    requires few { length letters.now ≤ LETTERS }
    requires place { place < length letters.now }
    ensures { result ≡ named_crossing strands (length letters.now) (left_of letters.now)
        (lower_left_is_over letters.now) place }
{
    let slots = crossing_of(letters, place);
    Crossing([
        name_of(strands, letters, slots.0[0]),
        name_of(strands, letters, slots.0[1]),
        name_of(strands, letters, slots.0[2]),
        name_of(strands, letters, slots.0[3]),
    ])
}

/// The name of an arc.
fn name_of(strands: u8, letters: &[i8], arc: u8) -> u8
    requires strands { strands ≤ STRANDS }
    requires few { length letters.now ≤ LETTERS }
    requires arc { arc ≤ 2 * LETTERS }
    ensures { result ≡ arc_name (length letters.now) (left_of letters.now) strands arc }
{
    bottom_of(strands, letters, arc).unwrap_or(strands + arc)
}

/// The position through whose bottom an arc goes, if there is one.
fn bottom_of(strands: u8, letters: &[i8], arc: u8) -> Option<u8>
    requires strands { strands ≤ STRANDS }
    requires few { length letters.now ≤ LETTERS }
    ensures { result ≡ find (is_bottom (length letters.now) (left_of letters.now) arc)
        (range_with_len 1 strands) }
{
    (1..strands + 1).find(|position| is_bottom(letters, arc, *position))
}

/// How many strands pass no crossing.
fn straight_count(strands: u8, letters: &[i8]) -> u8
    requires { strands ≤ STRANDS }
    ensures { result ≡ straight_count strands letters.now }
{
    (1..strands + 1)
        .filter(|position| is_straight(letters, *position))
        .count() as u8
}
