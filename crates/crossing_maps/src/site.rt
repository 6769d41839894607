//! Which arcs are near a crossing, and which are open after it.

ghost use Rattle.std.specs.Prelude.{◌≡◌, ℕ, ◌+◌, ◌<◌, ◌≤◌, ◌++◌, [], ◌∷◌, length, nat_eq, slice_index_or, if◌then◌else◌};
ghost use Rattle.std.specs.List.{filter, list_any, range_with_len};
ghost use Rattle.kh_types.specs.Code.{Code};
ghost use Rattle.added_crossing_laws.specs.Steps.{near};
ghost use Rattle.added_crossing_laws.specs.Codes.{points_at, step_at};
ghost use Rattle.tangle_maps.specs.declared.pairing.TheConstants.{POINTS};
ghost use Rattle.crossing_maps.specs.Sites.{IsPlace, slot_count, is_near_by, is_next_by};

use arrayvec::ArrayVec;
use kh_types::Crossing;
use tangle_maps::POINTS;

/// How many slots of a crossing have an arc.
fn slot_count(crossing: &Crossing, arc: u8) -> u8
    ensures ends { result ≡ slot_count crossing.now arc }
    ensures bound { result ≤ 4 }
{
    let [a, b, c, d] = crossing.0;
    u8::from(a == arc) + (u8::from(b == arc) + (u8::from(c == arc) + u8::from(d == arc)))
}

/// Whether an arc is one of some arcs.
fn is_among(arcs: &[u8], arc: u8) -> bool
    ensures { result ≡ list_any (nat_eq arc) arcs.now }
{
    'arcs: for other in arcs {
        if arc == *other {
            return true;
        }
    }
    false
}

/// Whether an arc is open or at the crossing.
fn is_near_by(opened: &[u8], crossing: &Crossing, arc: u8) -> bool
    ensures { result ≡ is_near_by opened.now crossing.now arc }
{
    is_among(opened, arc) || slot_count(crossing, arc) > 0
}

/// Whether an arc is open after the crossing.
fn is_next_by(opened: &[u8], crossing: &Crossing, arc: u8) -> bool
    ensures { result ≡ is_next_by opened.now crossing.now arc }
{
    u8::from(is_among(opened, arc)) + slot_count(crossing, arc) == 1
}

/// Adds an arc to others, if it passes.
pub(crate) fn push_if(arcs: &mut ArrayVec<u8, POINTS>, arc: u8, passes: bool)
    requires room { length arcs.old.items < POINTS }
    ensures arcs { arcs.new.items ≡ arcs.old.items ++ (if passes then arc ∷ [] else []) }
    ensures bound { length arcs.new.items ≤ length arcs.old.items + 1 }
{
    if passes {
        arcs.push(arc);
    }
}

/// The arcs that are open or at the crossing, ascending.
pub fn near_arcs(opened: &[u8], crossing: &Crossing) -> ArrayVec<u8, POINTS>
    ensures { (code : Code) (k : ℕ) → IsPlace code k → opened.now ≡ (points_at code k).opened
        → crossing.now ≡ slice_index_or code.crossings k []
        → result.items ≡ near (step_at code k) }
{
    let mut made = ArrayVec::new();
    'arcs: for arc in 0..POINTS {
        let passes = is_near_by(opened, crossing, arc as u8);
        push_if(&mut made, arc as u8, passes);
    }
    made
}

/// The arcs that are open after the crossing, ascending.
pub fn next_arcs(opened: &[u8], crossing: &Crossing) -> ArrayVec<u8, POINTS>
    ensures { (code : Code) (k : ℕ) → IsPlace code k → opened.now ≡ (points_at code k).opened
        → crossing.now ≡ slice_index_or code.crossings k []
        → result.items ≡ (points_at code (k + 1)).opened }
{
    let mut made = ArrayVec::new();
    'arcs: for arc in 0..POINTS {
        let passes = is_next_by(opened, crossing, arc as u8);
        push_if(&mut made, arc as u8, passes);
    }
    made
}
