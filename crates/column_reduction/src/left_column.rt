//! What stored columns leave of one column. Its last entry is made first: where no stored column
//! ends there, all of the column is left, and no other entry is made.

ghost use Rattle.std.specs.Prelude.{◌≡◌, ◌<◌, ◌^◌, [], pos, ◌+ℤ◌, true, length, slice_index_or};
ghost use Rattle.std.specs.Prelude.{IfOk};
ghost use Rattle.sparse_block.specs.Complexes.{place_count};
ghost use Rattle.column_reduction.specs.StoredColumns.{AreStored, IsLeftOfColumn, IsStoredAs};
ghost use Rattle.column_reduction.specs.StoredColumns.{full_columns, stored_column};

use crate::entries::last_row;
use crate::reduced_column::{Scratch, reduce_line};
use crate::stored_column::{StoredColumn, StoredColumns, owner_at};
use kh_types::NoMemory;
use prime_field::PrimeField;
use prime_field::laws::element_laws;
use sparse_block::{ColumnSource, Entry};
use std::alloc::Global;

/// What stored columns leave of a column out of degree number `k`, by its place, to be stored; none
/// where they leave nothing, or the place is dead.
pub(crate) fn left_of_column<F: PrimeField, S: ColumnSource<F>>(
    source: &mut S,
    scratch: &mut Scratch,
    stored: &StoredColumns,
    k: usize,
    place: usize,
    is_alive: bool,
) -> Result<Option<StoredColumn>, NoMemory>
    requires degree { k < length (S.whole source.old).names }
    requires place { place < length (slice_index_or (S.whole source.old).names k []) }
    requires few { place < 2 ^ 32 }
    requires height { length stored.now.owners.items ≡ place_count (S.whole source.old).complex
        ((S.whole source.old).complex.low +ℤ pos k +ℤ pos 1) }
    requires stored { AreStored F.P (full_columns (S.whole source.old).complex k
        stored.now.columns.items) stored.now.owners.items }
    ensures same { source.new ≡ source.old }
    ensures left { IfOk result (IsLeftOfColumn F.P (S.whole source.old).complex k is_alive place
        stored.now.columns.items) }
{
    element_laws::<F>();
    if !is_alive {
        return Ok(None);
    }
    let Some(last) = source.last_entry(k, place)? else {
        return Ok(None);
    };
    let row = last.place();
    if owner_at(&stored.owners, row).is_none() {
        return Ok(Some(own_column(*stored.columns.allocator(), place, row)));
    }
    left_of_entries::<F, S>(source, scratch, stored, k, place)
}

/// A column that is the complex's own, which ends at a row.
fn own_column(alloc: Global, column: usize, row: u32) -> StoredColumn
    requires few { column < 2 ^ 32 }
    ensures { result ≡ stored_column column row [] }
{
    StoredColumn {
        column: column as u32,
        row,
        entries: Vec::new(alloc),
    }
}

/// What stored columns leave of a column whose place is alive, by all its entries.
fn left_of_entries<F: PrimeField, S: ColumnSource<F>>(
    source: &mut S,
    scratch: &mut Scratch,
    stored: &StoredColumns,
    k: usize,
    place: usize,
) -> Result<Option<StoredColumn>, NoMemory>
    requires degree { k < length (S.whole source.old).names }
    requires place { place < length (slice_index_or (S.whole source.old).names k []) }
    requires few { place < 2 ^ 32 }
    requires height { length stored.now.owners.items ≡ place_count (S.whole source.old).complex
        ((S.whole source.old).complex.low +ℤ pos k +ℤ pos 1) }
    requires stored { AreStored F.P (full_columns (S.whole source.old).complex k
        stored.now.columns.items) stored.now.owners.items }
    ensures same { source.new ≡ source.old }
    ensures left { IfOk result (IsLeftOfColumn F.P (S.whole source.old).complex k true place
        stored.now.columns.items) }
{
    element_laws::<F>();
    scratch.make_room()?;
    source.put_column(&mut scratch.left, k, place)?;
    reduce_line::<F, S>(source, scratch, stored, k)?;
    column_of_line(*stored.columns.allocator(), place, &scratch.left)
}

/// A line as a column to be stored; none where it has no entry.
fn column_of_line(
    alloc: Global,
    column: usize,
    left: &[Entry],
) -> Result<Option<StoredColumn>, NoMemory>
    requires few { column < 2 ^ 32 }
    ensures { IfOk result (IsStoredAs column left.now) }
{
    let Some(row) = last_row(left) else {
        return Ok(None);
    };
    let mut entries = Vec::with_capacity(alloc, left.len())?;
    entries.extend_from_slice(left)?;
    Ok(Some(StoredColumn {
        column: column as u32,
        row,
        entries,
    }))
}
