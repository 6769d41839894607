//! For each object that is there the columns that lead to it, and perhaps some that did, or one
//! twice: a column that gains an entry is noted, and only with its object a list is given up.

ghost use Rattle.std.specs.Prelude.{◌≡◌, ◌≢◌, ℕ, ◌<◌, length, true, All, IfOk, OnOk};
ghost use Rattle.std.specs.List.{Contains};
ghost use Rattle.tangle_scan.specs.Eliminations.{AreMore, HasHead, column_in, named_in};

use crate::complex::{Column, Entry, TangleComplex};
use kh_types::NoMemory;
use std::alloc::Global;
use std::mem;
use tangle_maps::Seams;

/// For each place the columns that are noted there.
pub(crate) type Rows = Vec<Vec<usize>>;

/// A complex with its rows, and the seams that were made to clear it.
#[derive(Drop)]
pub(crate) struct Rowed {
    pub(crate) complex: TangleComplex,
    pub(crate) rows: Rows,
    pub(crate) seams: Seams,
}

/// The rows of some columns.
pub(crate) fn rows_of(alloc: Global, columns: &[Column]) -> Result<Rows, NoMemory>
    requires { All (λ column. All (λ entry. entry.head < length columns.now) column.items)
        columns.now }
    ensures size { IfOk result (λ rows. length rows.items ≡ length columns.now) }
    ensures noted { IfOk result (λ rows. (x : ℕ) → x < length columns.now
        → (y : ℕ) → HasHead (column_in columns.now x) y → Contains (named_in rows.items y) x) }
{
    let mut rows = no_rows(alloc, columns.len())?;
    'columns: for place in 0..columns.len() {
        note_column(&mut rows, columns[place].as_slice(), place)?;
    }
    Ok(rows)
}

/// Rows that name no column.
fn no_rows(alloc: Global, count: usize) -> Result<Rows, NoMemory>
    ensures { IfOk result (λ rows. length rows.items ≡ count) }
{
    let mut rows = Vec::with_capacity(alloc, count)?;
    'rows: for _ in 0..count {
        rows.push(Vec::new(alloc))?;
    }
    Ok(rows)
}

/// Notes a column in the rows to which it leads.
fn note_column(rows: &mut Rows, column: &[Entry], place: usize) -> Result<(), NoMemory>
    requires { All (λ entry. entry.head < length rows.old.items) column.now }
    ensures noted { OnOk result ((y : ℕ) → HasHead column.now y
        → Contains (named_in rows.new.items y) place) }
    ensures kept { OnOk result (AreMore rows.old.items rows.new.items) }
{
    'entries: for entry in column {
        note(rows, entry.head, place)?;
    }
    Ok(())
}

/// Notes a column in a row, if it is new there.
pub(crate) fn note_if(
    is_new: bool,
    rows: &mut Rows,
    row: usize,
    column: usize,
) -> Result<(), NoMemory>
    requires { row < length rows.old.items }
    ensures noted { OnOk result (is_new ≡ true → Contains (named_in rows.new.items row) column) }
    ensures kept { OnOk result (AreMore rows.old.items rows.new.items) }
{
    if !is_new {
        return Ok(());
    }
    note(rows, row, column)
}

/// Notes a column in a row.
fn note(rows: &mut Rows, row: usize, column: usize) -> Result<(), NoMemory>
    requires { row < length rows.old.items }
    ensures noted { OnOk result (Contains (named_in rows.new.items row) column) }
    ensures kept { OnOk result (AreMore rows.old.items rows.new.items) }
{
    rows[row].push(column)?;
    Ok(())
}

/// Takes the names out of a row.
pub(crate) fn take_row(alloc: Global, rows: &mut Rows, row: usize) -> Vec<usize>
    requires { row < length rows.old.items }
    ensures named { result.items ≡ named_in rows.old.items row }
    ensures size { length rows.new.items ≡ length rows.old.items }
    ensures others { (y : ℕ) → y ≢ row
        → named_in rows.new.items y ≡ named_in rows.old.items y }
{
    mem::replace(&mut rows[row], Vec::new(alloc))
}
