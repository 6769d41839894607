//! A way taken off a column: the map to the way's end becomes another.

ghost use Rattle.std.specs.Prelude.{◌≡◌, ◌≢◌, ℕ, ◌<◌, length, false, true, IfOk, IfSome, None, OnOk};
ghost use Rattle.std.specs.List.{position};
ghost use Rattle.tangle_maps.specs.Sums.{AreReduced};
ghost use Rattle.tangle_maps.specs.Ways.{IsCancelledAlong};
ghost use Rattle.tangle_scan.specs.Clearings.{CanTakeOver, CanTakeWay};
ghost use Rattle.tangle_scan.specs.Clearings.{HasTakenOver, HasTakenWay, IsKnownWay, IsPassage};
ghost use Rattle.tangle_scan.specs.Eliminations.{HasHead, HasHeadsOf, HasOneEach, IsChanged};
ghost use Rattle.tangle_scan.specs.Eliminations.{IsThrough, IsTrimmed, head_at};
ghost use Rattle.tangle_scan.specs.Held.{IsColumn, has_head, is_alive_at, partners_at};

use crate::clearing::rows::{Rows, note_if};
use crate::clearing::turns::{Start, Turn};
use crate::complex::{Column, Entry, Object};
use kh_types::NoMemory;
use prime_field::PrimeField;
use prime_field::laws::element_laws;
use smallvec::SmallVec;
use tangle_maps::{Pairing, Seams, Terms, Way, cancel, cancel_multiple, is_zero};

/// Takes the way over an entry of the pivot's column off a column, if its head is there, and notes
/// the column if it leads to a new head.
pub(crate) fn take_if_alive<F: PrimeField>(
    column: &mut Column,
    rows: &mut Rows,
    seams: &mut Seams,
    turn: &Turn<'_>,
    start: &Start<'_>,
    entry: &Entry,
) -> Result<(), NoMemory>
    requires { CanTakeOver F.P turn.now start.now entry.now column.old.items rows.old.items }
    ensures { OnOk result (HasTakenOver F.P turn.now start.now entry.now
        column.old.items column.new.items rows.old.items rows.new.items) }
{
    if !turn.objects[entry.head].is_alive {
        return Ok(());
    }
    let is_new = take_way::<F>(column, seams, turn, start, entry)?;
    note_if(is_new, rows, entry.head, start.place)?;
    Ok(())
}

/// Takes the way over an entry off a column, and tells whether the column leads to a new head.
fn take_way<F: PrimeField>(
    column: &mut Column,
    seams: &mut Seams,
    turn: &Turn<'_>,
    start: &Start<'_>,
    entry: &Entry,
) -> Result<bool, NoMemory>
    requires { CanTakeWay F.P turn.now start.now entry.now column.old.items }
    ensures { IfOk result
        (HasTakenWay F.P turn.now start.now entry.now column.old.items column.new.items) }
{
    element_laws::<F>();
    let way = way_over::<F>(turn, start, entry);
    let number = F::of(turn.pivot.number);
    match place_of(column, entry.head) {
        Some(at) => {
            cancel_in(column, seams, at, &way, start.multiple, number)?;
            Ok(false)
        }
        None => cancel_new(column, seams, entry.head, &way, start.multiple, number),
    }
}

/// The way from a start through the pivot and over an entry of its column.
fn way_over<'a, F: PrimeField>(turn: &Turn<'a>, start: &Start<'a>, entry: &'a Entry) -> Way<'a>
    requires passage { IsPassage F.P turn.now start.now entry.now }
    requires alive { is_alive_at turn.now.objects.now entry.now.head ≡ true }
    ensures through { IsThrough turn.now start.now.place entry.now.head start.now.first.now
        entry.now.terms.items result }
    ensures known { IsKnownWay F.P result start.now.multiple }
{
    Way {
        opened: turn.opened,
        from: pairing_at(turn.objects, start.place),
        over: pairing_at(turn.objects, turn.pivot.tail),
        to: pairing_at(turn.objects, entry.head),
        first: start.first,
        second: entry.terms.as_slice(),
    }
}

/// The pairing of the object at a place.
fn pairing_at(objects: &[Object], place: usize) -> &Pairing
    requires { place < length objects.now }
    ensures { result.now.partners ≡ partners_at objects.now place }
{
    &objects[place].pairing
}

/// The place of the entry with a head.
pub(crate) fn place_of(column: &Column, head: usize) -> Option<usize>
    ensures some { IfSome result (λ at. (at < length column.now.items)
        × (head_at column.now.items at ≡ head)) }
    ensures none { result ≡ None → HasHead column.now.items head → ⊥ }
{
    first_place(column.as_slice(), head)
}

/// The first place of a head.
fn first_place(column: &[Entry], head: usize) -> Option<usize>
    ensures { result ≡ position (has_head head) column.now }
{
    column.iter().position(|entry| entry.head == head)
}

/// Takes a way through a pivot off a map, by a composition, or without one where the first map of
/// the way is known to be a number times the identity.
fn take_off<F: PrimeField>(
    terms: &mut Terms,
    seams: &mut Seams,
    way: &Way<'_>,
    multiple: Option<u8>,
    number: F,
) -> Result<(), NoMemory>
    requires entry { AreReduced F.P terms.old.items }
    requires way { IsKnownWay F.P way.now multiple }
    requires number { F.value_of number ≢ 0 }
    ensures entry { OnOk result
        (IsCancelledAlong F.P (F.value_of number) way.now terms.old.items terms.new.items) }
    ensures reduced { AreReduced F.P terms.new.items }
{
    match multiple {
        Some(multiple) => cancel_multiple(terms, way, multiple, number),
        None => cancel(terms, seams, way, number),
    }
}

/// Takes a way off the entry at a place. An entry that becomes 0 is taken out.
fn cancel_in<F: PrimeField>(
    column: &mut Column,
    seams: &mut Seams,
    at: usize,
    way: &Way<'_>,
    multiple: Option<u8>,
    number: F,
) -> Result<(), NoMemory>
    requires at { at < length column.old.items }
    requires column { (n : ℕ) × IsColumn F.P n column.old.items }
    requires way { IsKnownWay F.P way.now multiple }
    requires number { F.value_of number ≢ 0 }
    ensures changed { OnOk result (IsChanged (IsCancelledAlong F.P (F.value_of number) way.now) (Unit {0})
        F.P (head_at column.old.items at) column.old.items column.new.items) }
    ensures same_heads { OnOk result (HasHeadsOf column.old.items column.new.items) }
{
    take_off(&mut column[at].terms, seams, way, multiple, number)?;
    trim(column, at);
    Ok(())
}

/// Takes the entry at a place out, if it is 0.
fn trim(column: &mut Column, at: usize)
    requires at { at < length column.old.items }
    requires once { HasOneEach column.old.items }
    ensures { (p : ℕ) → IsTrimmed p column.old.items column.new.items }
{
    if is_zero(column[at].terms.as_slice()) {
        column.remove(at);
    }
}

/// Takes a way off 0, for a head to which a column does not lead, and tells whether it leads there
/// then.
fn cancel_new<F: PrimeField>(
    column: &mut Column,
    seams: &mut Seams,
    head: usize,
    way: &Way<'_>,
    multiple: Option<u8>,
    number: F,
) -> Result<bool, NoMemory>
    requires column { (n : ℕ) × IsColumn F.P n column.old.items }
    requires new { HasHead column.old.items head → ⊥ }
    requires way { IsKnownWay F.P way.now multiple }
    requires number { F.value_of number ≢ 0 }
    ensures changed { OnOk result (IsChanged (IsCancelledAlong F.P (F.value_of number) way.now) (Unit {0})
        F.P head column.old.items column.new.items) }
    ensures same_heads { IfOk result (λ is_new. is_new ≡ false
        → HasHeadsOf column.old.items column.new.items) }
{
    let alloc = *column.allocator();
    let mut terms: Terms = SmallVec::new(alloc);
    take_off(&mut terms, seams, way, multiple, number)?;
    add_map(column, Entry { head, terms })
}

/// Adds a map to a column, if it is not 0, and tells whether it is not.
fn add_map(column: &mut Column, entry: Entry) -> Result<bool, NoMemory>
    requires { HasHead column.old.items entry.head → ⊥ }
    ensures changed { OnOk result ((p : ℕ) → AreReduced p entry.terms.items → IsChanged
        (λ old new. new ≡ entry.terms.items) (Unit {0}) p entry.head column.old.items column.new.items) }
    ensures same_heads { IfOk result (λ is_new. is_new ≡ false
        → HasHeadsOf column.old.items column.new.items) }
{
    if is_zero(entry.terms.as_slice()) {
        return Ok(false);
    }
    column.push(entry)?;
    Ok(true)
}
