//! The surface that a crossing adds between two pairings, before closed circles have labels.

ghost use Rattle.std.specs.Prelude.{◌≡◌, ◌+◌, ◌≤◌, ◌++◌, length, map, slice_index};
ghost use Rattle.std.specs.List.{filter};
ghost use Rattle.kh_types.specs.Classes.{is_least};
ghost use Rattle.tangle_maps.specs.declared.pairing.TheConstants.{POINTS};
ghost use Rattle.tangle_maps.specs.Pairings.{IsOpened};
ghost use Rattle.crossing_maps.specs.AddedSeams.{IsAddedSeam};
ghost use Rattle.crossing_maps.specs.Bridges.{IsBridge};
ghost use Rattle.crossing_maps.specs.Counts.{on};
ghost use Rattle.crossing_maps.specs.ListedPlaces.{AreArcs, IsArcs, places_in};

use crate::genus::{Lists, genera_in};
use arrayvec::ArrayVec;
use std::alloc::Global;
use tangle_maps::names::{Names, at};
use tangle_maps::seam::{Arcs, Seam, least_names, named};
use tangle_maps::{KnownSeam, POINTS};

/// Numbers of the half strips that lower the Euler count.
pub const STRIPS: usize = 2 * POINTS;

/// The seam of the discs before a crossing and the circles that are closed on either side, over the
/// discs after it; and how many of those circles are closed before the crossing: they come first.
#[derive(Drop)]
pub struct Bridge {
    pub seam: KnownSeam,
    pub closed: usize,
}

/// The components of half strips.
fn strips_on(classes: &Names, strips: &[u8]) -> ArrayVec<u8, STRIPS>
    requires below { IsOpened strips.now }
    requires room { length strips.now ≤ STRIPS }
    ensures { result.items ≡ map (slice_index classes.now) strips.now }
{
    let mut made = ArrayVec::new();
    'strips: for strip in strips {
        made.push(at(classes, *strip));
    }
    made
}

/// Some arcs, and others behind them.
fn appended(arcs: Arcs, others: &[u8]) -> Arcs
    requires { length arcs.items + length others.now ≤ POINTS }
    ensures { result.items ≡ arcs.items ++ others.now }
{
    let mut made = arcs;
    match made.try_extend_from_slice(others) {
        Ok(()) => made,
        Err(_) => unreachable!(),
    }
}

/// The seam of a surface of these classes of arcs, by the arcs near a crossing and its places.
fn seam_on(classes: &Names, near: &[u8], places: &Lists<'_>) -> Seam
    requires near { IsArcs POINTS near.now }
    requires places { AreArcs (places_in places.now) }
    ensures seam { IsAddedSeam (filter (is_least classes.now) near.now)
        (on (slice_index classes.now) (places_in places.now)) result }
    ensures circles { length result.second.items ≤ POINTS }
{
    let rims = named(classes, places.rims);
    let discs = named(classes, places.discs);
    let closed = named(classes, places.closed);
    let others = named(classes, places.others);
    let lowers = strips_on(classes, places.lowers);
    let raises = named(classes, places.raises);
    let lists = Lists {
        rims: &rims,
        discs: &discs,
        closed: &closed,
        others: &others,
        lowers: &lowers,
        raises: &raises,
    };
    let components = least_names(classes, classes, near);
    let genera = genera_in(&components, &lists);
    Seam {
        first: discs,
        second: appended(closed, &others),
        whole: rims,
        components,
        genera,
    }
}

/// The bridge of a surface of these classes of arcs, by the arcs near a crossing and its places.
pub fn bridge_on(alloc: Global, classes: &Names, near: &[u8], places: &Lists<'_>) -> Bridge
    requires near { IsArcs POINTS near.now }
    requires places { AreArcs (places_in places.now) }
    ensures bridge { IsBridge (filter (is_least classes.now) near.now)
        (on (slice_index classes.now) (places_in places.now)) result }
    ensures circles { length result.seam.second.items ≤ POINTS }
{
    let seam = seam_on(classes, near, places);
    Bridge {
        seam: KnownSeam::new(alloc, seam),
        closed: places.closed.len(),
    }
}
