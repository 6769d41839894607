//! Reduced columns in memory, and which row each of them owns.

ghost use Rattle.std.specs.Prelude.{◌≡◌, ◌<◌, ◌^◌, ℕ, [], ◌∷◌, ◌++◌, length, IfNone, IfOk, IfSome};
ghost use Rattle.std.specs.Prelude.{OnOk, Some, slice_index_or, slice_set};
ghost use Rattle.column_reduction.specs.StoredColumns.{AreStored, owner_in};

use crate::entries::last_row;
use kh_types::NoMemory;
use sparse_block::Entry;
use std::alloc::Global;
use std::marker::Model;

/// A reduced column: its number, the row of its last entry, and its entries. Where none are kept,
/// they are those of the complex's own column, which is made anew when it is asked for.
#[derive(Drop)]
pub(crate) struct StoredColumn {
    pub(crate) column: u32,
    pub(crate) row: u32,
    pub(crate) entries: Vec<Entry>,
}

impl Model for StoredColumn {
    ghost use Rattle.column_reduction.specs.StoredColumns.{StoredColumn as Plain, stored_column};

    ghost Value = { Plain };

    ghost view = { λ stored. stored_column stored.column stored.row stored.entries.items };
}

/// The reduced columns of a degree so far, and for each row the number of the one that ends there.
#[derive(Drop)]
pub(crate) struct StoredColumns {
    pub(crate) columns: Vec<StoredColumn>,
    pub(crate) owners: Vec<Option<u32>>,
}

/// No reduced column, and rows that none owns.
pub(crate) fn no_columns(alloc: Global, rows: usize) -> Result<StoredColumns, NoMemory>
    ensures columns { IfOk result (λ made. made.columns.items ≡ []) }
    ensures owners { IfOk result (λ made. length made.owners.items ≡ rows) }
    ensures stored { IfOk result (λ made. (p : ℕ)
        → AreStored p made.columns.items made.owners.items) }
{
    let columns = Vec::new(alloc);
    let owners = vec![in alloc; None; rows]?;
    Ok(StoredColumns { columns, owners })
}

/// The number of the column that ends where a line ends; none where no one does, or the line has no
/// entry.
pub(crate) fn owner_of(stored: &StoredColumns, line: &[Entry]) -> Option<u32>
    ensures { result ≡ owner_in stored.now.owners.items line.now }
{
    match last_row(line) {
        Some(row) => owner_at(&stored.owners, row),
        None => None,
    }
}

/// The owner of a row.
pub(crate) fn owner_at(owners: &[Option<u32>], row: u32) -> Option<u32>
    ensures { result ≡ slice_index_or owners.now row None }
{
    match owners.get(row as usize) {
        Some(owner) => *owner,
        None => None,
    }
}

/// Stores a column, if there is one, and makes it the owner of the row where it ends.
pub(crate) fn store(stored: &mut StoredColumns, found: Option<StoredColumn>) -> Result<(), NoMemory>
    requires room { length stored.old.columns.items < 2 ^ 32 }
    requires row { IfSome found (λ line. line.row < length stored.old.owners.items) }
    ensures none { IfNone found (stored.new ≡ stored.old) }
    ensures columns { OnOk result (IfSome found (λ line.
        stored.new.columns.items ≡ stored.old.columns.items ++ line ∷ [])) }
    ensures owners { OnOk result (IfSome found (λ line. stored.new.owners.items
        ≡ slice_set stored.old.owners.items line.row (Some (length stored.old.columns.items)))) }
{
    let Some(line) = found else {
        return Ok(());
    };
    let row = line.row as usize;
    let number = stored.columns.len() as u32;
    stored.columns.push(line)?;
    stored.owners[row] = Some(number);
    Ok(())
}
