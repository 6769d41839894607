//! New entries: old maps between successors with one smoothing, and saddles.

ghost use Rattle.std.specs.Prelude.{◌≡◌, ◌<◌, List, [], ◌∷◌, ◌++◌, length, OnOk};
ghost use Rattle.std.specs.List.{filter};
ghost use Rattle.scan_laws.specs.Adding.{Origin, origins_with, sign_at};
ghost use Rattle.tangle_maps.specs.Sums.{AreReduced};
ghost use Rattle.tangle_scan.specs.AddedBridges.{AreBridgesFrom, IsBridgeOver, IsSaddleOf};
ghost use Rattle.tangle_scan.specs.Additions.{AreLinks, HasEntriesTo, IsChild, IsParent};
ghost use Rattle.tangle_scan.specs.Additions.{code_in, has_terms, objects_in, origin_in, saddle_targets, scan_in};
ghost use Rattle.tangle_scan.specs.Held.{terms_between};

use crate::adding::bridges::{Bridges, bridge_to};
use crate::adding::children::{Child, Links, Parent, child_of, labels_between};
use crate::adding::label_count;
use crate::complex::{Column, Entry};
use crossing_maps::bridges::Bridge;
use crossing_maps::maps::{added_map, saddle_map};
use dotted_maps::term::Term;
use kh_types::NoMemory;
use prime_field::PrimeField;
use prime_field::laws::element_laws;
use tangle_maps::{Terms, is_zero};

/// An old map, or a new one along it: from a new object, with the terms of the old map.
#[derive(Clone, Copy)]
struct Arrow<'a> {
    from: &'a Child<'a>,
    terms: &'a [Term],
}

/// Adds an entry with these terms, if there are any.
fn push_entry(column: &mut Column, head: usize, terms: Terms) -> Result<(), NoMemory>
    ensures { OnOk result (column.new.items ≡ column.old.items
        ++ filter has_terms (record { head = head; terms = terms } ∷ [])) }
{
    if !is_zero(&terms) {
        column.push(Entry { head, terms })?;
    }
    Ok(())
}

/// Adds the entry to a new object along an old map, which keeps its smoothing.
fn push_added<F: PrimeField>(
    column: &mut Column,
    links: &Links<'_>,
    bridge: &mut Bridge,
    arrow: &Arrow<'_>,
    to: &Child<'_>,
) -> Result<(), NoMemory>
    requires links { AreLinks F.P links.now }
    requires from { IsChild links.now.adding.now arrow.now.from.now }
    requires to { IsChild links.now.adding.now to.now }
    requires smoothing { arrow.now.from.now.side.smoothing ≡ to.now.side.smoothing }
    requires terms { arrow.now.terms.now ≡ terms_between links.now.adding.now.complex.now
        arrow.now.from.now.parent to.now.parent }
    requires reduced { AreReduced F.P arrow.now.terms.now }
    requires bridge { IsBridgeOver links.now.adding.now arrow.now.from.now.side.smoothing
        arrow.now.from.now.parent to.now.parent bridge.old }
    ensures same { bridge.new ≡ bridge.old }
    ensures entries { (targets : List Origin) → HasEntriesTo F.P links.now.adding.now
        (origin_in arrow.now.from.now) targets column.old.items
        → OnOk result (HasEntriesTo F.P links.now.adding.now (origin_in arrow.now.from.now)
        (targets ++ (origin_in to.now ∷ [])) column.new.items) }
{
    let labels = labels_between(arrow.from, to);
    let terms = added_map::<F>(links.alloc, bridge, labels, arrow.terms)?;
    push_entry(column, to.place, terms)
}

/// Adds the entries to all successors, of the object to which an old map leads, with one smoothing.
fn push_all_along<'a, F: PrimeField>(
    column: &mut Column,
    links: &Links<'a>,
    bridge: &mut Bridge,
    arrow: &Arrow<'a>,
    head: &Parent<'a>,
) -> Result<(), NoMemory>
    requires links { AreLinks F.P links.now }
    requires from { IsChild links.now.adding.now arrow.now.from.now }
    requires head { IsParent links.now.adding.now head.now }
    requires terms { arrow.now.terms.now ≡ terms_between links.now.adding.now.complex.now
        arrow.now.from.now.parent head.now.place }
    requires reduced { AreReduced F.P arrow.now.terms.now }
    requires bridge { IsBridgeOver links.now.adding.now arrow.now.from.now.side.smoothing
        arrow.now.from.now.parent head.now.place bridge.old }
    ensures same { bridge.new ≡ bridge.old }
    ensures entries { (targets : List Origin) → HasEntriesTo F.P links.now.adding.now
        (origin_in arrow.now.from.now) targets column.old.items
        → OnOk result (HasEntriesTo F.P links.now.adding.now (origin_in arrow.now.from.now)
        (targets ++ origins_with (code_in links.now.adding.now) (scan_in links.now.adding.now)
        head.now.place arrow.now.from.now.side.smoothing) column.new.items) }
{
    let smoothing = arrow.from.side.smoothing;
    'labels: for label in 0..label_count(head.split(smoothing)) {
        let to = child_of(links, head, smoothing, label);
        push_added::<F>(column, links, bridge, arrow, &to)?;
    }
    Ok(())
}

/// Adds the entries along an old map to the object to which it leads, which is there.
pub fn push_over<'a, F: PrimeField>(
    column: &mut Column,
    links: &Links<'a>,
    bridges: &mut Bridges,
    from: &Child<'a>,
    old: &Entry,
    head: &Parent<'a>,
) -> Result<(), NoMemory>
    requires links { AreLinks F.P links.now }
    requires from { IsChild links.now.adding.now from.now }
    requires head { IsParent links.now.adding.now head.now }
    requires terms { old.now.terms.items ≡ terms_between links.now.adding.now.complex.now
        from.now.parent head.now.place }
    requires reduced { AreReduced F.P old.now.terms.items }
    requires bridges { AreBridgesFrom links.now.adding.now from.now.side.smoothing
        from.now.parent bridges.old.items }
    ensures entries { (targets : List Origin) → HasEntriesTo F.P links.now.adding.now
        (origin_in from.now) targets column.old.items
        → OnOk result (HasEntriesTo F.P links.now.adding.now (origin_in from.now)
        (targets ++ origins_with (code_in links.now.adding.now) (scan_in links.now.adding.now)
        head.now.place from.now.side.smoothing) column.new.items) }
    ensures bridges { OnOk result (AreBridgesFrom links.now.adding.now
        from.now.side.smoothing from.now.parent bridges.new.items) }
{
    let place = bridge_to(bridges, links, from, head)?;
    let arrow = Arrow {
        from,
        terms: old.terms.as_slice(),
    };
    push_all_along::<F>(column, links, &mut bridges[place].bridge, &arrow, head)
}

/// Minus 1 to a degree.
fn sign_of<F: PrimeField>(degree: u8) -> F
    ensures { F.value_of result ≡ sign_at F.P degree }
{
    element_laws::<F>();
    if degree % 2 == 0 {
        F::of(1)
    } else {
        F::of(1).neg()
    }
}

/// Adds the saddle from a new object to one with the other smoothing of the same old object.
fn push_saddle<F: PrimeField>(
    column: &mut Column,
    links: &Links<'_>,
    bridge: &mut Bridge,
    from: &Child<'_>,
    to: &Child<'_>,
) -> Result<(), NoMemory>
    requires links { AreLinks F.P links.now }
    requires to { IsChild links.now.adding.now to.now }
    requires parent { from.now.parent ≡ to.now.parent }
    requires within { from.now.parent < length (objects_in links.now.adding.now) }
    requires before { from.now.side.smoothing ≡ 0 }
    requires behind { to.now.side.smoothing ≡ 1 }
    requires bridge { IsSaddleOf links.now.adding.now from.now.parent bridge.old }
    ensures same { bridge.new ≡ bridge.old }
    ensures entries { (targets : List Origin) → HasEntriesTo F.P links.now.adding.now
        (origin_in from.now) targets column.old.items
        → OnOk result (HasEntriesTo F.P links.now.adding.now (origin_in from.now)
        (targets ++ (origin_in to.now ∷ [])) column.new.items) }
{
    let sign = sign_of::<F>(links.adding.complex.objects[from.parent].degree);
    let labels = labels_between(from, to);
    let terms = saddle_map::<F>(links.alloc, bridge, labels, sign)?;
    push_entry(column, to.place, terms)
}

/// Adds the saddles from a new object with the 0-smoothing to all that have the 1-smoothing of the
/// same old object, over the bridge of its saddle.
fn push_all_saddles<'a, F: PrimeField>(
    column: &mut Column,
    links: &Links<'a>,
    bridge: &mut Bridge,
    from: &'a Child<'a>,
    parent: &Parent<'a>,
) -> Result<(), NoMemory>
    requires links { AreLinks F.P links.now }
    requires bridge { IsSaddleOf links.now.adding.now parent.now.place bridge.old }
    requires parent { IsParent links.now.adding.now parent.now }
    requires same { from.now.parent ≡ parent.now.place }
    requires before { from.now.side.smoothing ≡ 0 }
    ensures same { bridge.new ≡ bridge.old }
    ensures entries { (targets : List Origin) → HasEntriesTo F.P links.now.adding.now
        (origin_in from.now) targets column.old.items
        → OnOk result (HasEntriesTo F.P links.now.adding.now (origin_in from.now)
        (targets ++ origins_with (code_in links.now.adding.now) (scan_in links.now.adding.now)
        parent.now.place 1) column.new.items) }
{
    'labels: for label in 0..label_count(parent.split(1)) {
        let to = child_of(links, parent, 1, label);
        push_saddle::<F>(column, links, bridge, from, &to)?;
    }
    Ok(())
}

/// Adds the saddles from a new object over the bridge of its parent's saddle, if it has the
/// 0-smoothing.
pub fn push_saddles<'a, F: PrimeField>(
    column: &mut Column,
    links: &Links<'a>,
    bridge: &mut Bridge,
    from: &'a Child<'a>,
    parent: &Parent<'a>,
) -> Result<(), NoMemory>
    requires links { AreLinks F.P links.now }
    requires bridge { IsSaddleOf links.now.adding.now parent.now.place bridge.old }
    requires from { IsChild links.now.adding.now from.now }
    requires parent { IsParent links.now.adding.now parent.now }
    requires same { from.now.parent ≡ parent.now.place }
    ensures same { bridge.new ≡ bridge.old }
    ensures entries { (targets : List Origin) → HasEntriesTo F.P links.now.adding.now
        (origin_in from.now) targets column.old.items
        → OnOk result (HasEntriesTo F.P links.now.adding.now (origin_in from.now)
        (targets ++ saddle_targets links.now.adding.now (origin_in from.now)) column.new.items) }
{
    if from.side.smoothing == 0 {
        push_all_saddles::<F>(column, links, bridge, from, parent)
    } else {
        Ok(())
    }
}
