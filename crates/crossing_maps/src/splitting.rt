//! What a smoothing of a crossing makes of a pairing.

ghost use Rattle.std.specs.Prelude.{◌≡◌, ℕ, ◌≤◌, length};
ghost use Rattle.kh_types.specs.Code.{Code};
ghost use Rattle.added_crossing_laws.specs.Pairings.{IsPairingOf};
ghost use Rattle.added_crossing_laws.specs.Codes.{closed_at, pairing_behind, points_at};
ghost use Rattle.tangle_maps.specs.declared.pairing.TheConstants.{POINTS};
ghost use Rattle.tangle_maps.specs.Pairings.{IsOpened, joins_of, paired_arcs};
ghost use Rattle.crossing_maps.specs.Partners.{HasArcsBelow};
ghost use Rattle.crossing_maps.specs.Sites.{IsPlace, IsSite};

use crate::behind::paired_by;
use crate::closed::closed_by;
use crate::names::classes_behind;
use arrayvec::ArrayVec;
use kh_types::Crossing;
use tangle_maps::{POINTS, Pairing};

/// Where a crossing is added: the arcs that are open before it, those that are open or at it, and
/// those that are open after it.
#[derive(Clone, Copy)]
pub struct Site<'a> {
    pub opened: &'a [u8],
    pub near: &'a [u8],
    pub next: &'a [u8],
    pub crossing: &'a Crossing,
}

/// The pairing after a crossing, and the circles that it closes, by their least arcs.
#[derive(Drop)]
pub struct Split {
    pub pairing: Pairing,
    pub closed: ArrayVec<u8, POINTS>,
}

/// What a smoothing makes of a pairing.
pub fn split_at(site: &Site<'_>, pairing: &Pairing, smoothing: u8) -> Split
    requires opened { IsOpened site.now.opened.now }
    requires near { IsOpened site.now.near.now }
    requires room { length site.now.near.now ≤ POINTS }
    requires next { IsOpened site.now.next.now }
    requires arcs { HasArcsBelow POINTS site.now.crossing.now }
    ensures pairs { (code : Code) (k : ℕ) → IsPlace code k
        → IsSite code k site.now.opened.now site.now.near.now site.now.next.now
        site.now.crossing.now
        → IsPairingOf (points_at code k).opened (joins_of pairing.now.partners site.now.opened.now)
        → joins_of result.pairing.partners site.now.next.now ≡ pairing_behind code k smoothing
        (joins_of pairing.now.partners site.now.opened.now) }
    ensures arcs { (code : Code) (k : ℕ) → IsPlace code k
        → IsSite code k site.now.opened.now site.now.near.now site.now.next.now
        site.now.crossing.now
        → IsPairingOf (points_at code k).opened (joins_of pairing.now.partners site.now.opened.now)
        → site.now.next.now ≡ paired_arcs result.pairing.partners }
    ensures closed { (code : Code) (k : ℕ) → IsPlace code k
        → IsSite code k site.now.opened.now site.now.near.now site.now.next.now
        site.now.crossing.now
        → IsPairingOf (points_at code k).opened (joins_of pairing.now.partners site.now.opened.now)
        → result.closed.items ≡ closed_at code k smoothing
        (joins_of pairing.now.partners site.now.opened.now) }
{
    let classes = classes_behind(pairing, site.opened, site.crossing, smoothing);
    Split {
        pairing: paired_by(&classes, site.next),
        closed: closed_by(&classes, site.near, site.next),
    }
}
