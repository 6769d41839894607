//! The circles that a crossing closes.

ghost use Rattle.std.specs.Prelude.{◌≡◌, ◌≤◌, length};
ghost use Rattle.std.specs.List.{filter};
ghost use Rattle.kh_types.specs.Classes.{is_least};
ghost use Rattle.added_crossing_laws.specs.Steps.{is_none_in};
ghost use Rattle.tangle_maps.specs.declared.pairing.TheConstants.{POINTS};
ghost use Rattle.tangle_maps.specs.Pairings.{IsOpened};

use arrayvec::ArrayVec;
use tangle_maps::POINTS;
use tangle_maps::names::{Names, at};

/// Whether none of some arcs is in a class.
fn is_none_in(opened: &[u8], classes: &Names, class: u8) -> bool
    requires { IsOpened opened.now }
    ensures { result ≡ is_none_in opened.now classes.now class }
{
    'arcs: for arc in opened {
        if at(classes, *arc) == class {
            return false;
        }
    }
    true
}

/// The classes of the arcs near the crossing of which none is open after it, by their least arcs.
pub fn closed_by(classes: &Names, near: &[u8], opened: &[u8]) -> ArrayVec<u8, POINTS>
    requires near { IsOpened near.now }
    requires room { length near.now ≤ POINTS }
    requires opened { IsOpened opened.now }
    ensures { result.items
        ≡ filter (is_none_in opened.now classes.now) (filter (is_least classes.now) near.now) }
{
    let mut made = ArrayVec::new();
    'arcs: for arc in near {
        if at(classes, *arc) == *arc && is_none_in(opened, classes, *arc) {
            made.push(*arc);
        }
    }
    made
}
