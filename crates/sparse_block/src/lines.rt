//! Columns and rows as lists of entries.

ghost use Rattle.std.specs.Prelude.{◌≡◌, ℕ, ◌<◌, ◌≤◌, ◌^◌, [], ◌∷◌, ◌++◌, length, map, replicate};
ghost use Rattle.std.specs.Prelude.{slice_set, slice_index_or, All, IfOk, OnOk};
ghost use Rattle.sparse_block.specs.Complexes.{matrix_from};
ghost use Rattle.sparse_block.specs.declared.entry.TheConstants.{MOST_PLACES};
ghost use Rattle.sparse_block.specs.Entries.{AreEntries, entries_of};
ghost use Rattle.sparse_block.specs.Inside.{entries_in, HaveColumn};

use crate::held_lines::HeldLines;
use crate::{Entry, INLINE_ENTRIES};
use kh_types::NoMemory;
use smallvec::SmallVec;
use std::alloc::Global;

/// The entries of a column, or a row, of degree number `k`; none where there is no such line.
pub(crate) fn line_at(degrees: &[HeldLines], k: usize, place: u32) -> &[Entry]
    ensures { result.now ≡ slice_index_or (slice_index_or degrees.now k []) place [] }
{
    match degrees.get(k) {
        Some(degree) => degree.line(place),
        None => &[],
    }
}

/// The rows of a matrix with `height` rows, from its columns.
pub(crate) fn rows_of(
    alloc: Global,
    height: u32,
    columns: &[SmallVec<Entry, INLINE_ENTRIES>],
) -> Result<Vec<SmallVec<Entry, INLINE_ENTRIES>>, NoMemory>
    requires count { length columns.now < 2 ^ 29 }
    requires entries { (p : ℕ) × All (AreEntries p height) (entries_in columns.now) }
    ensures { IfOk result (λ rows. entries_in rows.items
        ≡ map entries_of (matrix_from height (entries_in columns.now))) }
{
    let mut rows = empty_rows(alloc, height)?;
    'columns: for column in 0..columns.len() {
        push_column(&mut rows, column as u32, columns[column].as_slice())?;
    }
    Ok(rows)
}

fn empty_rows(alloc: Global, height: u32) -> Result<Vec<SmallVec<Entry, INLINE_ENTRIES>>, NoMemory>
    ensures { IfOk result (λ rows. entries_in rows.items ≡ replicate height []) }
{
    let mut rows = Vec::with_capacity(alloc, height as usize)?;
    'rows: for _ in 0..height {
        rows.push(SmallVec::new(alloc))?;
    }
    Ok(rows)
}

/// Puts the entries of one more column at the ends of the rows. The columns come in order, so each
/// row ascends.
fn push_column(
    rows: &mut Vec<SmallVec<Entry, INLINE_ENTRIES>>,
    column: u32,
    entries: &[Entry],
) -> Result<(), NoMemory>
    requires column { column < MOST_PLACES }
    requires entries { (p : ℕ) × AreEntries p (length rows.old.items) entries.now }
    ensures { OnOk result
        (HaveColumn column entries.now (entries_in rows.old.items) (entries_in rows.new.items)) }
{
    'entries: for entry in entries {
        push_entry(rows, entry.place(), Entry::new(column, entry.value()))?;
    }
    Ok(())
}

/// Puts an entry at the end of a row.
fn push_entry(
    rows: &mut Vec<SmallVec<Entry, INLINE_ENTRIES>>,
    row: u32,
    entry: Entry,
) -> Result<(), NoMemory>
    requires { row < length rows.old.items }
    ensures { OnOk result (entries_in rows.new.items ≡ slice_set (entries_in rows.old.items) row
        (slice_index_or (entries_in rows.old.items) row [] ++ entry ∷ [])) }
{
    rows[row as usize].push(entry)?;
    Ok(())
}
