//! A turn: a pivot is taken out of a complex, and each column is cleared of its head. The ways from
//! the column's object to that head, by the inverse of the pivot's number back to its tail, and on
//! to each object there are taken off the column.

ghost use Rattle.std.specs.Prelude.{◌≡◌, ◌≢◌, ℕ, ◌<◌, [], length, IfOk, IfSome, None, OnOk};
ghost use Rattle.tangle_scan.specs.Clearings.{CanClearColumn, CanClearColumns, CanEliminate, CanTakeWays};
ghost use Rattle.tangle_scan.specs.Clearings.{HasCleared, HasClearedAt, HasEliminated, HasTakenWays};
ghost use Rattle.tangle_scan.specs.Clearings.{IsClearedColumn};
ghost use Rattle.tangle_scan.specs.Eliminations.{IsKilled, IsMultipleAt, IsTakenOut, IsTurnOf, column_in};

use crate::clearing::pivots::{Pivot, have_one_pairing};
use crate::clearing::rows::{Rowed, Rows, take_row};
use crate::clearing::ways::{place_of, take_if_alive};
use crate::complex::{Column, Entry, Front, Object};
use dotted_maps::term::Term;
use kh_types::NoMemory;
use prime_field::PrimeField;
use std::alloc::Global;
use std::mem;
use tangle_maps::{Seams, number_of};

/// A pivot that is being cancelled: the opened arcs, the objects, of which its tail and its head
/// are not there any more, and the column that was taken out at its tail.
#[derive(Clone, Copy)]
pub(crate) struct Turn<'a> {
    pub(crate) opened: &'a [u8],
    pub(crate) objects: &'a [Object],
    pub(crate) pivot: Pivot,
    pub(crate) column: &'a [Entry],
}

/// The first map of a way: from the object at a place to the pivot's head; and the number that it
/// is times the identity, if it is one.
#[derive(Clone, Copy)]
pub(crate) struct Start<'a> {
    pub(crate) place: usize,
    pub(crate) first: &'a [Term],
    pub(crate) multiple: Option<u8>,
}

/// What is taken out with a pivot: the column of its tail, and the columns that the row of its head
/// names.
#[derive(Drop)]
struct Taken {
    column: Column,
    named: Vec<usize>,
}

/// Cancels a pivot. After want of memory nothing is left of the complex.
pub(crate) fn eliminate<F: PrimeField>(
    alloc: Global,
    front: &Front,
    rowed: Rowed,
    pivot: Pivot,
) -> Result<Rowed, NoMemory>
    requires { CanEliminate F.P front.now rowed pivot }
    ensures { IfOk result (HasEliminated F.P front.now rowed pivot) }
{
    let mut rowed = rowed;
    let taken = take_out(alloc, &mut rowed, pivot);
    let turn = turn_of(front, &rowed.complex.objects, pivot, &taken);
    let named = taken.named.as_slice();
    clear_all::<F>(
        &mut rowed.complex.columns,
        &mut rowed.rows,
        &mut rowed.seams,
        &turn,
        named,
    )?;
    Ok(rowed)
}

/// Marks that the objects of a pivot are not there any more, and takes the column of its tail and
/// the names in the row of its head out.
fn take_out(alloc: Global, rowed: &mut Rowed, pivot: Pivot) -> Taken
    requires tail { pivot.tail < length rowed.old.complex.objects.items }
    requires head { pivot.head < length rowed.old.complex.objects.items }
    requires columns { length rowed.old.complex.columns.items
        ≡ length rowed.old.complex.objects.items }
    requires rows { length rowed.old.rows.items ≡ length rowed.old.complex.objects.items }
    ensures { IsTakenOut pivot rowed.old rowed.new result }
{
    kill(&mut rowed.complex.objects, pivot.tail);
    kill(&mut rowed.complex.objects, pivot.head);
    let column = take_column(alloc, &mut rowed.complex.columns, pivot.tail);
    let named = take_row(alloc, &mut rowed.rows, pivot.head);
    Taken { column, named }
}

/// The turn of a pivot that was taken out.
fn turn_of<'a>(
    front: &'a Front,
    objects: &'a Vec<Object>,
    pivot: Pivot,
    taken: &'a Taken,
) -> Turn<'a>
    ensures { IsTurnOf front.now objects.now.items pivot taken.now result }
{
    Turn {
        opened: front.opened.as_slice(),
        objects: objects.as_slice(),
        pivot,
        column: taken.column.as_slice(),
    }
}

/// Takes a column out.
fn take_column(alloc: Global, columns: &mut Vec<Column>, place: usize) -> Column
    requires { place < length columns.old.items }
    ensures column { result.items ≡ column_in columns.old.items place }
    ensures size { length columns.new.items ≡ length columns.old.items }
    ensures none { column_in columns.new.items place ≡ [] }
    ensures others { (z : ℕ) → z ≢ place
        → column_in columns.new.items z ≡ column_in columns.old.items z }
{
    mem::replace(&mut columns[place], Vec::new(alloc))
}

/// Marks that the object at a place is not there any more.
fn kill(objects: &mut Vec<Object>, place: usize)
    requires { place < length objects.old.items }
    ensures { IsKilled place objects.old.items objects.new.items }
{
    objects[place].is_alive = false;
}

/// Clears the columns that are named.
fn clear_all<F: PrimeField>(
    columns: &mut Vec<Column>,
    rows: &mut Rows,
    seams: &mut Seams,
    turn: &Turn<'_>,
    named: &[usize],
) -> Result<(), NoMemory>
    requires { CanClearColumns F.P turn.now columns.old.items rows.old.items }
    ensures { OnOk result
        (HasCleared F.P turn.now named.now columns.old.items columns.new.items rows.new.items) }
{
    'columns: for place in named {
        clear_at::<F>(columns, rows, seams, turn, *place)?;
    }
    Ok(())
}

/// Clears the column at a place, if there is one.
fn clear_at<F: PrimeField>(
    columns: &mut Vec<Column>,
    rows: &mut Rows,
    seams: &mut Seams,
    turn: &Turn<'_>,
    place: usize,
) -> Result<(), NoMemory>
    requires { CanClearColumns F.P turn.now columns.old.items rows.old.items }
    ensures { OnOk result
        (HasClearedAt F.P turn.now place columns.old.items columns.new.items rows.new.items) }
{
    if place >= columns.len() {
        return Ok(());
    }
    clear::<F>(&mut columns[place], rows, seams, turn, place)?;
    Ok(())
}

/// Clears a column, out of the object at a place.
fn clear<F: PrimeField>(
    column: &mut Column,
    rows: &mut Rows,
    seams: &mut Seams,
    turn: &Turn<'_>,
    place: usize,
) -> Result<(), NoMemory>
    requires { CanClearColumn F.P turn.now place column.old.items rows.old.items }
    ensures { OnOk result (IsClearedColumn F.P turn.now place
        column.old.items column.new.items rows.old.items rows.new.items) }
{
    match place_of(column, turn.pivot.head) {
        Some(at) => {
            let entry = column.remove(at);
            let first = entry.terms.as_slice();
            let start = Start {
                place,
                first,
                multiple: multiple_at(turn, place, first),
            };
            take_ways::<F>(column, rows, seams, turn, &start)
        }
        None => Ok(()),
    }
}

/// The number that a map from the object at a place to a pivot's head is, times the identity, if it
/// is one: the object has the pairing of the pivot's tail.
fn multiple_at(turn: &Turn<'_>, place: usize, first: &[Term]) -> Option<u8>
    requires place { place < length turn.now.objects.now }
    requires tail { turn.now.pivot.tail < length turn.now.objects.now }
    ensures some { IfSome result (IsMultipleAt turn.now place first.now) }
    ensures none { result ≡ None → (number : ℕ) → IsMultipleAt turn.now place first.now number → ⊥ }
{
    match number_of(first) {
        Some(number) if have_one_pairing(&turn.objects[place], &turn.objects[turn.pivot.tail]) => {
            Some(number)
        }
        _ => None,
    }
}

/// Takes the ways through the pivot off a column, from which the map to the pivot's head was taken.
fn take_ways<F: PrimeField>(
    column: &mut Column,
    rows: &mut Rows,
    seams: &mut Seams,
    turn: &Turn<'_>,
    start: &Start<'_>,
) -> Result<(), NoMemory>
    requires { CanTakeWays F.P turn.now start.now column.old.items rows.old.items }
    ensures { OnOk result (HasTakenWays F.P turn.now start.now
        column.old.items column.new.items rows.old.items rows.new.items) }
{
    let entries = turn.column;
    'entries: for entry in entries {
        take_if_alive::<F>(column, rows, seams, turn, start, entry)?;
    }
    Ok(())
}
