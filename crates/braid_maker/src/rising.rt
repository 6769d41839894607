//! Where each strand of a closed braid comes from.
//!
//! Strands go upwards. The crossing of the letter at the place i has the arcs 2i + 1 at its upper
//! left and 2i + 2 at its upper right; from below each of its two strands comes from the last
//! crossing before, going round from the top to the bottom.

ghost use Rattle.std.specs.Prelude.{◌≡◌, ◌≤◌, ◌<◌, ◌+◌, ◌*◌, length, All, IfSome};
ghost use Rattle.std.specs.List.{list_any, range_with_len};
ghost use Rattle.braid_maker.specs.Words.{arc_above, arc_below, crossing_of_letter, last_below, previous, touches};
ghost use Rattle.braid_maker.specs.Braids.{is_straight, left_of, lower_left_is_over};
ghost use Rattle.braid_maker.specs.Closures.{bottom_arc, is_bottom};
ghost use Rattle.braid_maker.specs.declared.limits.TheConstants.{LETTERS};

use crate::limits::LETTERS;
use kh_types::Crossing;

/// The crossing at a place, by the arcs of its strands.
pub fn crossing_of(letters: &[i8], place: usize) -> Crossing
    requires few { length letters.now ≤ LETTERS }
    requires place { place < length letters.now }
    ensures crossing { result ≡ crossing_of_letter (length letters.now) (left_of letters.now)
        (lower_left_is_over letters.now) place }
    ensures small { All (λ arc. arc ≤ 2 * LETTERS) result }
{
    let left = left_of(letters, place);
    let lower_left = arc_below(letters, left, place);
    let lower_right = arc_below(letters, left + 1, place);
    let upper_left = 2 * place as u8 + 1;
    let upper_right = 2 * place as u8 + 2;
    if passes_over(letters, place) {
        Crossing([lower_right, upper_right, upper_left, lower_left])
    } else {
        Crossing([lower_left, lower_right, upper_right, upper_left])
    }
}

/// Whether the strand from the lower left is over at the crossing of a letter.
pub fn passes_over(letters: &[i8], place: usize) -> bool
    requires { place < length letters.now }
    ensures { result ≡ lower_left_is_over letters.now place }
{
    letters[place] > 0
}

/// Whether an arc goes through the bottom of a position.
pub fn is_bottom(letters: &[i8], arc: u8, position: u8) -> bool
    requires { length letters.now ≤ LETTERS }
    ensures { result ≡ is_bottom (length letters.now) (left_of letters.now) arc position }
{
    is_touched(letters, position) && bottom_arc(letters, position) == arc
}

/// Whether the strand at a position passes no crossing.
pub fn is_straight(letters: &[i8], position: u8) -> bool
    ensures { result ≡ is_straight letters.now position }
{
    !is_touched(letters, position)
}

/// Whether the strand at a position passes a crossing.
fn is_touched(letters: &[i8], position: u8) -> bool
    ensures { result ≡ list_any (touches (left_of letters.now) position)
        (range_with_len 0 (length letters.now)) }
{
    (0..letters.len()).any(|place| touches(letters, position, place))
}

/// The arc that leaves the last crossing on the strand at a position.
fn bottom_arc(letters: &[i8], position: u8) -> u8
    requires { length letters.now ≤ LETTERS }
    ensures { result ≡ bottom_arc (length letters.now) (left_of letters.now) position }
{
    let last = last_below(letters, position, letters.len()).unwrap_or(0);
    arc_above(letters, position, last)
}

/// The arc that comes in from below at a position.
fn arc_below(letters: &[i8], position: u8, place: usize) -> u8
    requires few { length letters.now ≤ LETTERS }
    requires place { place < length letters.now }
    ensures arc { result ≡ arc_below (length letters.now) (left_of letters.now) position place }
    ensures small { result ≤ 2 * LETTERS }
{
    arc_above(letters, position, previous(letters, position, place))
}

/// The last crossing before a place that the strand at a position passes, going round.
fn previous(letters: &[i8], position: u8, place: usize) -> usize
    requires { place < length letters.now }
    ensures place { result ≡ previous (length letters.now)
        (touches (left_of letters.now) position) 0 place }
    ensures within { result < length letters.now }
{
    match last_below(letters, position, place) {
        Some(last) => last,
        None => last_below(letters, position, letters.len()).unwrap_or(0),
    }
}

/// The last crossing below a place that the strand at a position passes.
fn last_below(letters: &[i8], position: u8, end: usize) -> Option<usize>
    requires { end ≤ length letters.now }
    ensures last { result ≡ last_below (touches (left_of letters.now) position) end }
    ensures within { IfSome result (λ last. last < end) }
{
    let mut last = None;
    'places: for place in 0..end {
        last = later(letters, position, place, last);
    }
    last
}

/// A place, where the strand at a position passes its crossing, else another.
fn later(letters: &[i8], position: u8, place: usize, last: Option<usize>) -> Option<usize>
    requires last { last ≡ last_below (touches (left_of letters.now) position) place }
    requires within { IfSome last (λ other. other < place) }
    ensures last { result ≡ last_below (touches (left_of letters.now) position) (place + 1) }
    ensures within { IfSome result (λ other. other < place + 1) }
{
    if touches(letters, position, place) {
        Some(place)
    } else {
        last
    }
}

/// The arc that leaves a crossing upwards at a position.
fn arc_above(letters: &[i8], position: u8, place: usize) -> u8
    requires { place < LETTERS }
    ensures arc { result ≡ arc_above (left_of letters.now) position place }
    ensures small { result ≤ 2 * LETTERS }
{
    let arc = 2 * place as u8 + 1;
    if left_of(letters, place) == position {
        arc
    } else {
        arc + 1
    }
}

/// Whether the crossing at a place is on the strand at a position.
fn touches(letters: &[i8], position: u8, place: usize) -> bool
    ensures { result ≡ touches (left_of letters.now) position place }
{
    let left = left_of(letters, place);
    left == position || left + 1 == position
}

/// The position at the left of the crossing of a letter.
pub fn left_of(letters: &[i8], place: usize) -> u8
    ensures left { result ≡ left_of letters.now place }
    ensures small { result ≤ 128 }
{
    letters.get(place).copied().unwrap_or(0).unsigned_abs()
}
