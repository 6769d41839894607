//! The bridges of new maps: of the surface that a crossing adds where it has one smoothing, and of
//! the saddle between its two.

ghost use Rattle.std.specs.Prelude.{◌≡◌, ℕ, ◌*◌, ◌<◌, ◌≤◌, ◌++◌, ◌∷◌, length, map};
ghost use Rattle.kh_types.specs.Code.{Code, arc_in};
ghost use Rattle.surface_laws.specs.Points.{least_points};
ghost use Rattle.tangle_maps.specs.declared.pairing.TheConstants.{POINTS};
ghost use Rattle.tangle_maps.specs.Pairings.{IsOpened, joins_of, leads};
ghost use Rattle.crossing_maps.specs.Bridges.{CanLabel, IsAddedBridge, IsBridgeAt, IsSaddleBridge};
ghost use Rattle.crossing_maps.specs.ListedPlaces.{IsArcs};
ghost use Rattle.crossing_maps.specs.NewTerms.{first_end};
ghost use Rattle.crossing_maps.specs.Sides.{CanAdd, IsSideAt, IsSiteAt, pairs_before};
ghost use Rattle.crossing_maps.specs.Sites.{IsPlace};

use crate::added::added_classes;
use crate::bridges::{Bridge, STRIPS, bridge_on};
use crate::genus::Lists;
use crate::site::push_if;
use crate::splitting::{Site, Split};
use arrayvec::ArrayVec;
use kh_types::Crossing;
use std::alloc::Global;
use tangle_maps::Pairing;
use tangle_maps::seam::{Arcs, joined, least_names};

/// A pairing before a crossing, a smoothing, and what that makes of the pairing.
#[derive(Clone, Copy)]
pub struct Side<'a> {
    pub pairing: &'a Pairing,
    pub smoothing: u8,
    pub split: &'a Split,
}

/// The discs of two pairings of these arcs, by their least arcs.
fn discs_of(one: &Pairing, other: &Pairing, arcs: &[u8]) -> Arcs
    requires { IsArcs POINTS arcs.now }
    ensures discs { result.items ≡ least_points POINTS arcs.now
        (joins_of one.now.partners arcs.now ++ joins_of other.now.partners arcs.now) }
    ensures arcs { IsArcs POINTS result.items }
{
    let classes = joined(one, other, arcs);
    least_names(&classes, &classes, arcs)
}

/// Whether an arc is the lesser of a pair.
fn leads(pairing: &Pairing, arc: u8) -> bool
    requires { arc < POINTS }
    ensures { result ≡ leads pairing.now.partners arc }
{
    arc < pairing.partner(arc)
}

/// The lesser arc of each pair, of some arcs.
fn first_ends(pairing: &Pairing, arcs: &[u8]) -> Arcs
    requires opened { IsOpened arcs.now }
    requires room { length arcs.now ≤ POINTS }
    ensures ends { result.items ≡ map first_end (joins_of pairing.now.partners arcs.now) }
    ensures arcs { IsArcs POINTS result.items }
{
    let mut made = ArrayVec::new();
    'arcs: for arc in arcs {
        let leads = leads(pairing, *arc);
        push_if(&mut made, *arc, leads);
    }
    made
}

/// The arc at the first slot of a crossing.
fn first_slot(crossing: &Crossing) -> u8
    ensures { result ≡ arc_in crossing.now 0 }
{
    let [arc, _, _, _] = crossing.0;
    arc
}

/// Two half strips at an arc, and one at each of some others.
fn strips_with(arc: u8, arcs: &[u8]) -> ArrayVec<u8, STRIPS>
    requires arc { arc < POINTS }
    requires opened { IsOpened arcs.now }
    requires room { length arcs.now ≤ POINTS }
    ensures strips { result.items ≡ arc ∷ arc ∷ arcs.now }
    ensures arcs { IsArcs (2 * POINTS) result.items }
{
    let mut made = ArrayVec::new();
    made.push(arc);
    made.push(arc);
    'arcs: for other in arcs {
        made.push(*other);
    }
    made
}

/// The bridge of a surface that a crossing adds between two sides, with these discs before it and
/// these half strips.
fn bridge_between(
    alloc: Global,
    site: &Site<'_>,
    from: &Side<'_>,
    to: &Side<'_>,
    discs: &[u8],
    lowers: &[u8],
) -> Bridge
    requires sides { CanAdd site.now from.now to.now }
    requires discs { IsArcs POINTS discs.now }
    requires lowers { IsArcs (2 * POINTS) lowers.now }
    ensures labels { CanLabel result }
    ensures bridge { (code : Code) (k : ℕ) → IsPlace code k → IsSiteAt code k site.now
        → IsSideAt code k site.now from.now → IsSideAt code k site.now to.now
        → IsBridgeAt code k from.now.smoothing to.now.smoothing (pairs_before site.now from.now)
        (pairs_before site.now to.now) discs.now lowers.now result }
{
    let classes = added_classes(site, from.pairing, from.smoothing, to.pairing, to.smoothing);
    let rims = discs_of(&from.split.pairing, &to.split.pairing, site.next);
    let places = Lists {
        rims: &rims,
        discs,
        closed: &from.split.closed,
        others: &to.split.closed,
        lowers,
        raises: site.next,
    };
    bridge_on(alloc, &classes, site.near, &places)
}

/// The bridge of the surface that a crossing adds between two sides.
pub fn added_bridge(alloc: Global, site: &Site<'_>, from: &Side<'_>, to: &Side<'_>) -> Bridge
    requires sides { CanAdd site.now from.now to.now }
    ensures labels { CanLabel result }
    ensures bridge { (code : Code) (k : ℕ) → IsPlace code k → IsSiteAt code k site.now
        → IsSideAt code k site.now from.now → IsSideAt code k site.now to.now
        → IsAddedBridge code k from.now.smoothing to.now.smoothing (pairs_before site.now from.now)
        (pairs_before site.now to.now) result }
{
    let discs = discs_of(from.pairing, to.pairing, site.opened);
    bridge_between(alloc, site, from, to, &discs, site.opened)
}

/// The bridge of the saddle of a pairing at a crossing, from its 0-smoothing to its 1-smoothing.
pub fn saddle_bridge(alloc: Global, site: &Site<'_>, from: &Side<'_>, to: &Side<'_>) -> Bridge
    requires sides { CanAdd site.now from.now to.now }
    requires zero { from.now.smoothing ≡ 0 }
    requires one { to.now.smoothing ≡ 1 }
    requires pairing { to.now.pairing.now.partners ≡ from.now.pairing.now.partners }
    ensures labels { CanLabel result }
    ensures bridge { (code : Code) (k : ℕ) → IsPlace code k → IsSiteAt code k site.now
        → IsSideAt code k site.now from.now → IsSideAt code k site.now to.now
        → IsSaddleBridge code k (pairs_before site.now from.now) result }
{
    let arc = first_slot(site.crossing);
    let ends = first_ends(from.pairing, site.opened);
    let strips = strips_with(arc, site.opened);
    bridge_between(alloc, site, from, to, &ends, &strips)
}
