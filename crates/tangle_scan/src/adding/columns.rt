//! The new columns.

ghost use Rattle.std.specs.Prelude.{◌≡◌, ◌+◌, ◌<◌, List, [], ◌++◌, length, map, IfOk, OnOk};
ghost use Rattle.std.specs.List.{flat_map};
ghost use Rattle.scan_laws.specs.Adding.{Origin, origins_with};
ghost use Rattle.scan_laws.specs.Scans.{pairs_of};
ghost use Rattle.tangle_maps.specs.Sums.{AreReduced};
ghost use Rattle.tangle_scan.specs.AddedBridges.{AreAllBridges, AreBridgesFrom, AreBridgesOf, IsSaddleOf, pairs_in};
ghost use Rattle.tangle_scan.specs.Additions.{AreColumnsFrom, AreLinks, HasEntriesTo, IsChild, IsColumnFrom, IsParent};
ghost use Rattle.tangle_scan.specs.Additions.{all_origins, code_in, head_of, objects_in, origin_in, origins_to, scan_in, targets_along};
ghost use Rattle.tangle_scan.specs.Held.{column_at, terms_between};

use crate::adding::bridges::{AllBridges, Bridges, BridgesOf, bridges_of};
use crate::adding::children::{Child, Links, Parent, child_of, parent_at};
use crate::adding::entries::{push_over, push_saddles};
use crate::adding::label_count;
use crate::complex::{Column, Entry};
use crossing_maps::bridges::Bridge;
use kh_types::NoMemory;
use prime_field::PrimeField;

/// The columns of all new objects, in their order.
pub fn columns_of<F: PrimeField>(links: &Links<'_>) -> Result<Vec<Column>, NoMemory>
    requires links { AreLinks F.P links.now }
    ensures { IfOk result (λ columns. AreColumnsFrom F.P links.now.adding.now
        (all_origins links.now.adding.now) columns.items) }
{
    let mut made = Vec::with_capacity(links.alloc, links.count)?;
    let mut all = Vec::new(links.alloc);
    'places: for place in 0..links.successors.len() {
        push_columns::<F>(&mut made, links, &mut all, place)?;
    }
    Ok(made)
}

/// Adds the columns of the successors of the object at a place, if it is there.
fn push_columns<'a, F: PrimeField>(
    made: &mut Vec<Column>,
    links: &Links<'a>,
    all: &mut AllBridges,
    place: usize,
) -> Result<(), NoMemory>
    requires links { AreLinks F.P links.now }
    requires all { AreAllBridges links.now.adding.now all.old.items }
    requires place { place < length (objects_in links.now.adding.now) }
    requires made { AreColumnsFrom F.P links.now.adding.now
        (origins_to links.now.adding.now place) made.old.items }
    ensures columns { OnOk result (AreColumnsFrom F.P links.now.adding.now
        (origins_to links.now.adding.now (place + 1)) made.new.items) }
    ensures all { OnOk result (AreAllBridges links.now.adding.now all.new.items) }
{
    match parent_at(links, place) {
        None => Ok(()),
        Some(parent) => push_alive::<F>(made, links, all, &parent),
    }
}

/// Adds the columns of the successors of an object, with the bridges of its pairing.
fn push_alive<'a, F: PrimeField>(
    made: &mut Vec<Column>,
    links: &Links<'a>,
    all: &mut AllBridges,
    parent: &Parent<'a>,
) -> Result<(), NoMemory>
    requires links { AreLinks F.P links.now }
    requires all { AreAllBridges links.now.adding.now all.old.items }
    requires parent { IsParent links.now.adding.now parent.now }
    requires made { AreColumnsFrom F.P links.now.adding.now
        (origins_to links.now.adding.now parent.now.place) made.old.items }
    ensures columns { OnOk result (AreColumnsFrom F.P links.now.adding.now
        (origins_to links.now.adding.now (parent.now.place + 1)) made.new.items) }
    ensures all { OnOk result (AreAllBridges links.now.adding.now all.new.items) }
{
    let place = bridges_of(all, links, parent)?;
    push_both::<F>(made, links, &mut all[place], parent)
}

/// Adds the columns of the successors of an object, with one smoothing and with the other.
fn push_both<'a, F: PrimeField>(
    made: &mut Vec<Column>,
    links: &Links<'a>,
    bridges: &mut BridgesOf,
    parent: &Parent<'a>,
) -> Result<(), NoMemory>
    requires links { AreLinks F.P links.now }
    requires parent { IsParent links.now.adding.now parent.now }
    requires bridges { AreBridgesOf links.now.adding.now bridges.old }
    requires pairs { pairs_in links.now.adding.now bridges.old
        ≡ pairs_of (scan_in links.now.adding.now) parent.now.place }
    requires made { AreColumnsFrom F.P links.now.adding.now
        (origins_to links.now.adding.now parent.now.place) made.old.items }
    ensures columns { OnOk result (AreColumnsFrom F.P links.now.adding.now
        (origins_to links.now.adding.now (parent.now.place + 1)) made.new.items) }
    ensures bridges { OnOk result (AreBridgesOf links.now.adding.now bridges.new) }
{
    push_columns_of::<F>(
        made,
        links,
        &mut bridges.zero,
        &mut bridges.saddle,
        parent,
        0,
    )?;
    push_columns_of::<F>(
        made,
        links,
        &mut bridges.one,
        &mut bridges.saddle,
        parent,
        1,
    )
}

/// Adds the columns of the successors of an object that have a smoothing.
fn push_columns_of<'a, F: PrimeField>(
    made: &mut Vec<Column>,
    links: &Links<'a>,
    bridges: &mut Bridges,
    saddle: &mut Bridge,
    parent: &Parent<'a>,
    smoothing: u8,
) -> Result<(), NoMemory>
    requires links { AreLinks F.P links.now }
    requires bridges { AreBridgesFrom links.now.adding.now smoothing parent.now.place
        bridges.old.items }
    requires saddle { IsSaddleOf links.now.adding.now parent.now.place saddle.old }
    requires parent { IsParent links.now.adding.now parent.now }
    requires smoothing { smoothing < 2 }
    ensures saddle { saddle.new ≡ saddle.old }
    ensures columns { (from : List Origin)
        → AreColumnsFrom F.P links.now.adding.now from made.old.items
        → OnOk result (AreColumnsFrom F.P links.now.adding.now (from
        ++ origins_with (code_in links.now.adding.now) (scan_in links.now.adding.now)
        parent.now.place smoothing) made.new.items) }
    ensures bridges { OnOk result (AreBridgesFrom links.now.adding.now smoothing
        parent.now.place bridges.new.items) }
{
    'labels: for label in 0..label_count(parent.split(smoothing)) {
        let child = child_of(links, parent, smoothing, label);
        made.push(column_from::<F>(links, bridges, saddle, &child, parent)?)?;
    }
    Ok(())
}

/// The column of a new object, with what comes from maps out of the old one, and with its saddles.
/// It has room for few entries more than it has.
fn column_from<'a, F: PrimeField>(
    links: &'a Links<'a>,
    bridges: &mut Bridges,
    saddle: &mut Bridge,
    child: &'a Child<'a>,
    parent: &Parent<'a>,
) -> Result<Column, NoMemory>
    requires links { AreLinks F.P links.now }
    requires saddle { IsSaddleOf links.now.adding.now parent.now.place saddle.old }
    requires bridges { AreBridgesFrom links.now.adding.now child.now.side.smoothing
        child.now.parent bridges.old.items }
    requires child { IsChild links.now.adding.now child.now }
    requires parent { IsParent links.now.adding.now parent.now }
    requires same { child.now.parent ≡ parent.now.place }
    ensures saddle { saddle.new ≡ saddle.old }
    ensures column { IfOk result (λ column. IsColumnFrom F.P links.now.adding.now
        (origin_in child.now) column.items) }
    ensures bridges { OnOk result (AreBridgesFrom links.now.adding.now
        child.now.side.smoothing child.now.parent bridges.new.items) }
{
    let entries = &links.adding.complex.columns[child.parent];
    let mut column = Vec::with_capacity(links.alloc, entries.len().saturating_add(2))?;
    push_all::<F>(&mut column, links, bridges, child, entries)?;
    push_saddles::<F>(&mut column, links, saddle, child, parent)?;
    trim(&mut column);
    Ok(column)
}

/// How many entries a column may have room for beyond those that it has.
const SPARE: usize = 2;

/// Gives back the memory of a column that is not used, where this is more than SPARE entries.
fn trim(column: &mut Column)
    ensures { column.new.items ≡ column.old.items }
{
    if column.capacity().saturating_sub(column.len()) > SPARE {
        column.shrink_to_fit();
    }
}

/// Adds the entries of a new object's column along all maps out of the old one.
fn push_all<'a, F: PrimeField>(
    column: &mut Column,
    links: &'a Links<'a>,
    bridges: &mut Bridges,
    child: &'a Child<'a>,
    entries: &[Entry],
) -> Result<(), NoMemory>
    requires links { AreLinks F.P links.now }
    requires bridges { AreBridgesFrom links.now.adding.now child.now.side.smoothing
        child.now.parent bridges.old.items }
    requires child { IsChild links.now.adding.now child.now }
    requires within { child.now.parent < length (objects_in links.now.adding.now) }
    requires none { column.old.items ≡ [] }
    requires entries { entries.now
        ≡ column_at links.now.adding.now.complex.now child.now.parent }
    ensures entries { OnOk result (HasEntriesTo F.P links.now.adding.now (origin_in child.now)
        (flat_map (targets_along links.now.adding.now child.now.side.smoothing)
        (map head_of entries.now)) column.new.items) }
    ensures bridges { OnOk result (AreBridgesFrom links.now.adding.now
        child.now.side.smoothing child.now.parent bridges.new.items) }
{
    'entries: for entry in entries {
        push_along::<F>(column, links, bridges, child, entry)?;
    }
    Ok(())
}

/// Adds the entries along an old map to the object to which it leads, if that is there.
fn push_along<'a, F: PrimeField>(
    column: &mut Column,
    links: &Links<'a>,
    bridges: &mut Bridges,
    from: &Child<'a>,
    old: &Entry,
) -> Result<(), NoMemory>
    requires links { AreLinks F.P links.now }
    requires from { IsChild links.now.adding.now from.now }
    requires head { old.now.head < length (objects_in links.now.adding.now) }
    requires terms { old.now.terms.items ≡ terms_between links.now.adding.now.complex.now
        from.now.parent old.now.head }
    requires reduced { AreReduced F.P old.now.terms.items }
    requires bridges { AreBridgesFrom links.now.adding.now from.now.side.smoothing
        from.now.parent bridges.old.items }
    ensures entries { (targets : List Origin) → HasEntriesTo F.P links.now.adding.now
        (origin_in from.now) targets column.old.items
        → OnOk result (HasEntriesTo F.P links.now.adding.now (origin_in from.now)
        (targets ++ targets_along links.now.adding.now from.now.side.smoothing old.now.head)
        column.new.items) }
    ensures bridges { OnOk result (AreBridgesFrom links.now.adding.now
        from.now.side.smoothing from.now.parent bridges.new.items) }
{
    match parent_at(links, old.head) {
        None => Ok(()),
        Some(head) => push_over::<F>(column, links, bridges, from, old, &head),
    }
}
