//! What a composition goes over: three pairings, the discs of each two of them, and the components.

ghost use Rattle.std.specs.Prelude.{◌≡◌, ℕ, ◌+◌, ◌<◌, ◌≤◌, ◌++◌, if◌then◌else◌, length, map, min, nat_eq, slice_index};
ghost use Rattle.std.specs.List.{count_by, filter, AllByRecursion, Contains};
ghost use Rattle.kh_types.specs.Classes.{classes_of, is_least};
ghost use Rattle.tangle_maps.specs.declared.pairing.TheConstants.{POINTS};
ghost use Rattle.tangle_maps.specs.Pairings.{IsOpened, joins_of, opened_points};
ghost use Rattle.tangle_maps.specs.Seams.{IsSeam, dots_on, genus_by};

use crate::names::{Names, at};
use crate::pairing::{ALONE, POINTS, Pairing, join_pairs};
use arrayvec::ArrayVec;
use kh_types::bit;

/// Numbers of arcs, one for each of some arcs or discs.
pub type Arcs = ArrayVec<u8, POINTS>;

/// The discs of each two of three pairings, each by the component that it is on, all components by
/// their least arcs, and the genus of each.
#[derive(Drop)]
pub struct Seam {
    pub first: Arcs,
    pub second: Arcs,
    pub whole: Arcs,
    pub components: Arcs,
    pub genera: Names,
}

/// The classes of arcs that two pairings of these arcs join.
pub fn joined(one: &Pairing, other: &Pairing, opened: &[u8]) -> Names
    requires { IsOpened opened.now }
    ensures { result ≡ classes_of POINTS
        (joins_of one.now.partners opened.now ++ joins_of other.now.partners opened.now) }
{
    let mut classes = ALONE;
    join_pairs(&mut classes, one, opened);
    join_pairs(&mut classes, other, opened);
    classes
}

/// The least arcs of the classes, each as the number that the names give it.
pub fn least_names(classes: &Names, names: &Names, opened: &[u8]) -> Arcs
    requires opened { IsOpened opened.now }
    requires room { length opened.now ≤ POINTS }
    ensures { result.items
        ≡ map (slice_index names.now) (filter (is_least classes.now) opened.now) }
{
    let mut made = ArrayVec::new();
    'arcs: for arc in opened {
        if at(classes, *arc) == *arc {
            made.push(at(names, *arc));
        }
    }
    made
}

impl Seam {
    /// The seam of three pairings of these arcs.
    pub fn new(first: &Pairing, middle: &Pairing, last: &Pairing, opened: &[u8]) -> Seam
        requires opened { IsOpened opened.now }
        requires room { length opened.now ≤ POINTS }
        ensures { IsSeam (opened_points opened.now) (joins_of first.now.partners opened.now)
            (joins_of middle.now.partners opened.now) (joins_of last.now.partners opened.now)
            result }
    {
        let ends = joined(first, last, opened);
        let mut classes = ends;
        join_pairs(&mut classes, middle, opened);
        let whole = least_names(&ends, &classes, opened);
        let first_discs = least_names(&joined(first, middle, opened), &classes, opened);
        let second = least_names(&joined(middle, last, opened), &classes, opened);
        let components = least_names(&classes, &classes, opened);
        let arcs = named(&classes, opened);
        let genera = genera(&components, &arcs, &first_discs, &second, &whole);
        Seam {
            first: first_discs,
            second,
            whole,
            components,
            genera,
        }
    }
}

/// The numbers of arcs.
pub fn named(names: &Names, arcs: &[u8]) -> Arcs
    requires opened { IsOpened arcs.now }
    requires room { length arcs.now ≤ POINTS }
    ensures { result.items ≡ map (slice_index names.now) arcs.now }
{
    let mut made = ArrayVec::new();
    'arcs: for arc in arcs {
        made.push(at(names, *arc));
    }
    made
}

/// The genus of each component, by the components of the arcs and of the discs.
#[tactic(auto, using(crate::proofs::SeamLemmas::noted_more))]
fn genera(components: &[u8], arcs: &[u8], first: &[u8], second: &[u8], whole: &[u8]) -> Names
    requires components { IsOpened components.now }
    requires arcs { length arcs.now ≤ POINTS }
    requires first { length first.now ≤ POINTS }
    requires second { length second.now ≤ POINTS }
    requires whole { length whole.now ≤ POINTS }
    ensures { (k : ℕ) → Contains components.now k
        → slice_index result k ≡ genus_by k arcs.now first.now second.now whole.now }
{
    let mut genera = [0; POINTS];
    'components: for component in components {
        genera[usize::from(*component)] = genus(*component, arcs, first, second, whole);
    }
    genera
}

/// The genus of a component.
fn genus(component: u8, arcs: &[u8], first: &[u8], second: &[u8], whole: &[u8]) -> u8
    requires arcs { length arcs.now ≤ POINTS }
    requires first { length first.now ≤ POINTS }
    requires second { length second.now ≤ POINTS }
    requires whole { length whole.now ≤ POINTS }
    ensures { result ≡ genus_by component arcs.now first.now second.now whole.now }
{
    let faces = how_many(component, whole)
        + (how_many(component, first) + how_many(component, second));
    ((how_many(component, arcs) + 4).saturating_sub(2 * faces) / 4) as u8
}

/// How many of some numbers are a component.
pub fn how_many(component: u8, numbers: &[u8]) -> usize
    ensures count { result ≡ count_by (λ x. nat_eq x component) numbers.now }
    ensures bound { result ≤ length numbers.now }
{
    numbers.iter().filter(|x| **x == component).count()
}

/// Adds to the number of each component how many of its discs, of which these are the components,
/// have a dot; a number stays below 256.
#[tactic(auto, using(crate::proofs::SeamLemmas::dots_on_more, crate::proofs::SeamLemmas::dots_on_none))]
pub fn add_dots(loads: &mut Names, dots: u64, places: &[u8])
    ensures { (k : ℕ) → k < POINTS → slice_index loads.new k
        ≡ min 255 (slice_index loads.old k + dots_on k dots places.now) }
{
    if dots == 0 {
        return;
    }
    'places: for place in 0..places.len() {
        add_if(loads, places[place], bit(dots, place));
    }
}

/// Adds to the number of a component; it stays below 256.
fn add_if(loads: &mut Names, component: u8, more: u8)
    ensures { (k : ℕ) → k < POINTS → slice_index loads.new k
        ≡ min 255 (slice_index loads.old k + (if nat_eq component k then more else 0)) }
{
    if usize::from(component) < POINTS {
        let load = loads[usize::from(component)];
        loads[usize::from(component)] = load.saturating_add(more);
    }
}
