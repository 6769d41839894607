//! Seams that are kept once they have been made, and found again by their three pairings.

ghost use Rattle.std.specs.Prelude.{◌≡◌, ◌<◌, length, true, IfOk, IfSome, OnOk};
ghost use Rattle.dotted_maps.specs.Maps.{scaled};
ghost use Rattle.tangle_maps.specs.declared.kept.TheConstants.{LISTS};
ghost use Rattle.tangle_maps.specs.KeptSeams.{AreKeptSeams, HasSeamAt, IsKeptSeam, IsSeamAlong};
ghost use Rattle.tangle_maps.specs.Sums.{AreReduced, IsSum};
ghost use Rattle.tangle_maps.specs.Ways.{HasReducedMaps, IsWay, listed_along};

use crate::composing::{add_all, seam_of};
use crate::known::KnownSeam;
use crate::pairing::Pairing;
use crate::sum::Terms;
use crate::way::Way;
use kh_types::NoMemory;
use prime_field::PrimeField;
use std::alloc::Global;
use std::marker::Model;

/// How many lists of seams there are.
const LISTS: usize = 64;

/// The seam of three pairings.
#[derive(Drop)]
pub(crate) struct KeptSeam {
    from: Pairing,
    over: Pairing,
    to: Pairing,
    seam: KnownSeam,
}

/// Seams that have been made, in lists by a number that their pairings have. Contracts see nothing
/// of them.
#[derive(Drop)]
pub struct Seams {
    lists: Vec<Vec<KeptSeam>>,
}

impl Model for Seams {
    ghost use Rattle.tangle_maps.specs.KeptSeams.{AreSeamLists};

    ghost Value = { Unit {0} };

    ghost view = { λ seams. tt };

    ghost invariant = { λ seams. AreSeamLists seams.lists.items };
}

impl Seams {
    /// No seams.
    pub fn none(alloc: Global) -> Result<Seams, NoMemory> {
        let mut lists = Vec::with_capacity(alloc, LISTS)?;
        'numbers: for _ in 0..LISTS {
            lists.push(Vec::new(alloc))?;
        }
        Ok(Seams { lists })
    }

    /// Adds a multiple of the composition of a way's maps to a sum. Out of memory it may be half
    /// done.
    pub fn add_composition<F: PrimeField>(
        &mut self,
        terms: &mut Terms,
        way: &Way<'_>,
        factor: F,
    ) -> Result<(), NoMemory>
        requires reduced { AreReduced F.P terms.old.items }
        requires way { IsWay way.now }
        requires maps { HasReducedMaps F.P way.now }
        ensures sum { OnOk result (IsSum F.P terms.old.items
            (scaled (F.value_of factor) (listed_along way.now)) terms.new.items) }
        ensures reduced { AreReduced F.P terms.new.items }
    {
        add_in(&mut self.lists[list_of(way)], terms, way, factor)
    }
}

/// Adds a multiple of the composition of a way's maps, over a seam of a list, to a sum.
fn add_in<F: PrimeField>(
    list: &mut Vec<KeptSeam>,
    terms: &mut Terms,
    way: &Way<'_>,
    factor: F,
) -> Result<(), NoMemory>
    requires list { AreKeptSeams list.old.items }
    requires reduced { AreReduced F.P terms.old.items }
    requires way { IsWay way.now }
    requires maps { HasReducedMaps F.P way.now }
    ensures list { AreKeptSeams list.new.items }
    ensures sum { OnOk result (IsSum F.P terms.old.items
        (scaled (F.value_of factor) (listed_along way.now)) terms.new.items) }
    ensures reduced { AreReduced F.P terms.new.items }
{
    let place = place_in(list, way)?;
    add_all(terms, &mut list[place].seam, way.first, way.second, factor)
}

/// The number of the list in which the seam of a way is kept.
fn list_of(way: &Way<'_>) -> usize
    ensures { result < LISTS }
{
    let mut mark: u64 = 0;
    'arcs: for arc in way.opened {
        let place = usize::from(*arc);
        let from = way.from.partners.get(place).copied().unwrap_or(0);
        let over = way.over.partners.get(place).copied().unwrap_or(0);
        let to = way.to.partners.get(place).copied().unwrap_or(0);
        let here = u64::from(from) + 64 * u64::from(over) + 4096 * u64::from(to);
        mark = mark.wrapping_mul(31).wrapping_add(here);
    }
    (mark % (LISTS as u64)) as usize
}

/// The place of the seam of a way in a list, which is made if there is none.
fn place_in(list: &mut Vec<KeptSeam>, way: &Way<'_>) -> Result<usize, NoMemory>
    requires list { AreKeptSeams list.old.items }
    requires way { IsWay way.now }
    ensures list { AreKeptSeams list.new.items }
    ensures place { IfOk result (HasSeamAt way.now list.new.items) }
{
    match found_in(list.as_slice(), way) {
        Some(place) => Ok(place),
        None => push_seam(list, way),
    }
}

/// The place of the seam of a way in a list, if it is there.
fn found_in(list: &[KeptSeam], way: &Way<'_>) -> Option<usize>
    requires { AreKeptSeams list.now }
    ensures { IfSome result (HasSeamAt way.now list.now) }
{
    'places: for place in 0..list.len() {
        if is_along(&list[place], way) {
            return Some(place);
        }
    }
    None
}

/// Whether a seam is kept as that of the pairings of a way.
fn is_along(kept: &KeptSeam, way: &Way<'_>) -> bool
    requires { IsKeptSeam kept.now }
    ensures { result ≡ true → IsSeamAlong way.now kept.now.seam }
{
    have_same(&kept.from, way.from) && leads_along(kept, way)
}

/// Whether its second pairing and its third are those of a way.
fn leads_along(kept: &KeptSeam, way: &Way<'_>) -> bool
    ensures over { result ≡ true → kept.now.over.partners ≡ way.now.over.now.partners }
    ensures to { result ≡ true → kept.now.to.partners ≡ way.now.to.now.partners }
{
    have_same(&kept.over, way.over) && have_same(&kept.to, way.to)
}

/// Whether two pairings have the same partners.
fn have_same(one: &Pairing, other: &Pairing) -> bool
    ensures { result ≡ true → one.now.partners ≡ other.now.partners }
{
    one.partners == other.partners
}

/// Makes the seam of a way, and tells its place.
fn push_seam(list: &mut Vec<KeptSeam>, way: &Way<'_>) -> Result<usize, NoMemory>
    requires list { AreKeptSeams list.old.items }
    requires way { IsWay way.now }
    ensures list { AreKeptSeams list.new.items }
    ensures place { IfOk result (HasSeamAt way.now list.new.items) }
{
    let alloc = *list.allocator();
    let seam = seam_of(alloc, way);
    let place = list.len();
    list.push(KeptSeam {
        from: *way.from,
        over: *way.over,
        to: *way.to,
        seam,
    })?;
    Ok(place)
}
