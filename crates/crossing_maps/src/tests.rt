//! What no clause says: that the calls succeed where there is memory, and what the first two
//! crossings of the trefoil add. The values are those of dotted surfaces (Bar-Natan 2005), worked
//! out by hand: a saddle that merges a closed circle with a strand leaves the strand as it is where
//! the circle has v+, and dots it where that has v-.

ghost use Rattle.std.specs.Prelude.{◌≡◌, ◌<◌, [], slice_index_or};
ghost use Rattle.kh_types.specs.WorkedCodes.{trefoil};
ghost use Rattle.added_crossing_laws.specs.Codes.{points_at};
ghost use Rattle.tangle_maps.specs.Pairings.{joins_of, paired_arcs};
ghost use Rattle.crossing_maps.specs.Sides.{IsSiteAt, IsSplit};

use crate::between::{Side, added_bridge, saddle_bridge};
use crate::maps::{added_map, saddle_map};
use crate::seams::Labels;
use crate::site::{near_arcs, next_arcs};
use crate::splitting::{Site, Split, split_at};
use dotted_maps::term::Term;
use kh_types::{Crossing, NoMemory};
use prime_field::{F3, PrimeField};
use smallvec::SmallVec;
use std::alloc::Global;
use std::test::Fail;
use tangle_maps::{POINTS, Pairing, Terms};

type Pairs = &'static [(u8, u8)];

/// A saddle with the sign -1, or what a map of one term without dots becomes where the crossing has
/// its 0-smoothing: at the first crossing or the second, by the place, with these pairs before it,
/// labels of the circles that are closed on either side, and the terms over three elements, by dots
/// and coefficient. A saddle has one pairing.
struct Row {
    is_saddle: bool,
    place: usize,
    pairs: Pairs,
    other_pairs: Pairs,
    labels: (u64, u64),
    terms: &'static [(u64, u8)],
}

const ACROSS: Pairs = &[(1, 4), (2, 5)];

const ALONG: Pairs = &[(1, 5), (2, 4)];

const ROWS: &[Row] = &[
    Row {
        is_saddle: true,
        place: 0,
        pairs: &[],
        other_pairs: &[],
        labels: (0, 0),
        terms: &[(0, 2)],
    },
    Row {
        is_saddle: true,
        place: 1,
        pairs: ACROSS,
        other_pairs: ACROSS,
        labels: (0, 0),
        terms: &[(0, 2)],
    },
    Row {
        is_saddle: true,
        place: 1,
        pairs: ACROSS,
        other_pairs: ACROSS,
        labels: (1, 0),
        terms: &[(2, 2)],
    },
    // The saddle of the first crossing.
    Row {
        is_saddle: false,
        place: 1,
        pairs: ACROSS,
        other_pairs: ALONG,
        labels: (1, 0),
        terms: &[(1, 1)],
    },
];

/// A pairing with these pairs.
fn pairing_of(pairs: &[(u8, u8)]) -> Pairing {
    let mut made = Pairing::none();
    'pairs: for pair in pairs {
        pair_up(&mut made, pair.0, pair.1);
    }
    made
}

/// Makes partners of two arcs, where both have none.
fn pair_up(made: &mut Pairing, one: u8, other: u8) {
    if usize::from(one) < POINTS && usize::from(other) < POINTS && one != other {
        if made.partner(one) == one && made.partner(other) == other {
            made.pair(one, other);
        }
    }
}

/// What a smoothing of one of the first crossings makes of a pairing of the open arcs.
fn split_there(place: usize, site: &Site<'_>, pairing: &Pairing, smoothing: u8) -> Split
    requires place { place < 2 }
    requires site { IsSiteAt trefoil place site.now }
    requires arcs { site.now.opened.now ≡ paired_arcs pairing.now.partners }
    ensures { IsSplit trefoil place smoothing (joins_of pairing.now.partners site.now.opened.now)
        (joins_of result.pairing.partners site.now.next.now) result.closed.items }
{
    split_at(site, pairing, smoothing)
}

/// A row's labels.
fn labels_of(row: &Row) -> Labels {
    Labels {
        before: row.labels.0,
        behind: row.labels.1,
    }
}

/// The saddle of a row's first pairing at one of the first crossings, with the sign -1.
fn saddle_there(alloc: Global, place: usize, site: &Site<'_>, row: &Row) -> Result<Terms, NoMemory>
    requires place { place < 2 }
    requires site { IsSiteAt trefoil place site.now }
{
    let pairing = pairing_of(row.pairs);
    if !pairing.is_of(site.opened) {
        return Ok(SmallVec::new(alloc));
    }
    let none = split_there(place, site, &pairing, 0);
    let one = split_there(place, site, &pairing, 1);
    let from = Side {
        pairing: &pairing,
        smoothing: 0,
        split: &none,
    };
    let to = Side {
        pairing: &pairing,
        smoothing: 1,
        split: &one,
    };
    let mut bridge = saddle_bridge(alloc, site, &from, &to);
    saddle_map(alloc, &mut bridge, labels_of(row), F3::of(2))
}

/// What the map of one term without dots becomes between a row's pairings, where one of the first
/// crossings has its 0-smoothing.
fn added_there(alloc: Global, place: usize, site: &Site<'_>, row: &Row) -> Result<Terms, NoMemory>
    requires place { place < 2 }
    requires site { IsSiteAt trefoil place site.now }
{
    let pairing = pairing_of(row.pairs);
    let other = pairing_of(row.other_pairs);
    if !pairing.is_of(site.opened) || !other.is_of(site.opened) {
        return Ok(SmallVec::new(alloc));
    }
    let split = split_there(place, site, &pairing, 0);
    let other_split = split_there(place, site, &other, 0);
    let from = Side {
        pairing: &pairing,
        smoothing: 0,
        split: &split,
    };
    let to = Side {
        pairing: &other,
        smoothing: 0,
        split: &other_split,
    };
    let bare = [Term {
        dots: 0,
        coefficient: 1,
    }];
    let mut bridge = added_bridge(alloc, site, &from, &to);
    added_map::<F3>(alloc, &mut bridge, labels_of(row), &bare)
}

/// The terms of a row, where these arcs are open and this is the crossing.
fn terms_at(
    alloc: Global,
    place: usize,
    opened: &[u8],
    crossing: &Crossing,
    row: &Row,
) -> Result<Terms, NoMemory>
    requires place { place < 2 }
    requires opened { opened.now ≡ (points_at trefoil place).opened }
    requires crossing { crossing.now ≡ slice_index_or trefoil.crossings place [] }
{
    let near = near_arcs(opened, crossing);
    let next = next_arcs(opened, crossing);
    let site = Site {
        opened,
        near: near.as_slice(),
        next: next.as_slice(),
        crossing,
    };
    if row.is_saddle {
        saddle_there(alloc, place, &site, row)
    } else {
        added_there(alloc, place, &site, row)
    }
}

/// The terms of a row, at the first crossing of the trefoil or at the second.
fn terms_of(alloc: Global, row: &Row) -> Result<Terms, NoMemory> {
    let first = Crossing([1, 4, 2, 5]);
    if row.place == 0 {
        return terms_at(alloc, 0, &[], &first, row);
    }
    let opened = next_arcs(&[], &first);
    terms_at(alloc, 1, opened.as_slice(), &Crossing([3, 6, 4, 1]), row)
}

/// Whether a sum has these terms, by dots and coefficient, in this order.
fn has_terms(sum: &[Term], terms: &[(u64, u8)]) -> bool {
    sum.len() == terms.len()
        && sum
            .iter()
            .zip(terms)
            .all(|(found, term)| (found.dots, found.coefficient) == *term)
}

#[test]
fn the_trefoils_first_crossings_add_known_terms(rt: HostRuntime) -> Result<(), Fail> {
    for row in ROWS {
        let terms = terms_of(rt.alloc(), row)?;
        assert!(rt; has_terms(&terms, row.terms), "{terms:?}");
    }
    Ok(())
}
