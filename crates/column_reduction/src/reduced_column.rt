//! The reduction of one column: multiples of reduced columns are taken away while one ends where it
//! ends.

ghost use Rattle.std.specs.Prelude.{◌≡◌, ℕ, ◌<◌, pos, ◌+ℤ◌, length, OnOk};
ghost use Rattle.sparse_block.specs.Complexes.{place_count};
ghost use Rattle.sparse_block.specs.Entries.{AreEntries, value_at};
ghost use Rattle.column_reduction.specs.Reductions.{EndsAt};
ghost use Rattle.column_reduction.specs.StoredColumns.{AreStored, IsReducedLine, entries_less};
ghost use Rattle.column_reduction.specs.StoredColumns.{full_column, full_columns};

use crate::entries::last_value;
use crate::stored_column::{StoredColumn, StoredColumns, owner_of};
use kh_types::NoMemory;
use prime_field::laws::element_laws;
use prime_field::{PrimeField, quotient};
use sparse_block::{ColumnSource, Entry, subtract_into};
use std::alloc::Global;
use std::mem::swap;

/// Room for the entries that few columns go beyond.
const USUAL_ENTRIES: usize = 64;

/// What is left of a column, room for what comes next, and room for a column that is made anew.
#[derive(Drop)]
pub(crate) struct Scratch {
    pub(crate) left: Vec<Entry>,
    pub(crate) spare: Vec<Entry>,
    pub(crate) own: Vec<Entry>,
}

impl Scratch {
    /// Nothing, with no room yet.
    pub(crate) fn new(alloc: Global) -> Scratch {
        Scratch {
            left: Vec::new(alloc),
            spare: Vec::new(alloc),
            own: Vec::new(alloc),
        }
    }

    /// Empties the lists, and makes room for most columns at once, since lists that grow take
    /// longer. No clause rests on it.
    pub(crate) fn make_room(&mut self) -> Result<(), NoMemory> {
        self.left.clear();
        self.left.reserve(USUAL_ENTRIES)?;
        self.spare.clear();
        self.spare.reserve(USUAL_ENTRIES)?;
        self.own.clear();
        self.own.reserve(USUAL_ENTRIES)?;
        Ok(())
    }
}

/// Takes multiples of stored columns of degree number `k` from a line until none ends where it
/// ends.
pub(crate) fn reduce_line<F: PrimeField, S: ColumnSource<F>>(
    source: &mut S,
    scratch: &mut Scratch,
    stored: &StoredColumns,
    k: usize,
) -> Result<(), NoMemory>
    requires degree { k < length (S.whole source.old).names }
    requires height { length stored.now.owners.items ≡ place_count (S.whole source.old).complex
        ((S.whole source.old).complex.low +ℤ pos k +ℤ pos 1) }
    requires stored { AreStored F.P (full_columns (S.whole source.old).complex k
        stored.now.columns.items) stored.now.owners.items }
    requires line { AreEntries F.P (length stored.now.owners.items) scratch.old.left.items }
    ensures same { source.new ≡ source.old }
    ensures reduced { OnOk result (IsReducedLine F.P (length stored.now.owners.items)
        (full_columns (S.whole source.old).complex k
        stored.now.columns.items) scratch.old.left.items scratch.new.left.items) }
{
    element_laws::<F>();
    'taking: while let Some(number) = owner_of(stored, &scratch.left) {
        take_away::<F, S>(source, scratch, k, &stored.columns[number as usize])?;
    }
    Ok(())
}

/// Takes from a line the multiple of a stored column of degree number `k` that ends where the line
/// ends, so that it becomes 0 there.
fn take_away<F: PrimeField, S: ColumnSource<F>>(
    source: &mut S,
    scratch: &mut Scratch,
    k: usize,
    stored: &StoredColumn,
) -> Result<(), NoMemory>
    requires degree { k < length (S.whole source.old).names }
    requires line { (size : ℕ) × AreEntries F.P size scratch.old.left.items }
    requires ends { EndsAt stored.now.row (value_at scratch.old.left.items) }
    requires stored { (size : ℕ) × AreEntries F.P size
        (full_column (S.whole source.old).complex k stored.now).entries }
    requires stored_ends { EndsAt stored.now.row (value_at
        (full_column (S.whole source.old).complex k
        stored.now).entries) }
    ensures same { source.new ≡ source.old }
    ensures less { OnOk result ((size : ℕ) → AreEntries F.P size scratch.old.left.items
        → AreEntries F.P size (full_column (S.whole source.old).complex k stored.now).entries
        → scratch.new.left.items ≡ entries_less F.P size stored.now.row scratch.old.left.items
        (full_column (S.whole source.old).complex k stored.now).entries) }
{
    element_laws::<F>();
    source.low();
    if stored.entries.is_empty() {
        source.put_column(&mut scratch.own, k, stored.column as usize)?;
        return take_multiple::<F>(&mut scratch.left, &mut scratch.spare, &scratch.own);
    }
    take_multiple::<F>(&mut scratch.left, &mut scratch.spare, &stored.entries)
}

/// Takes from a line the multiple of another that ends where it ends, so that it becomes 0 there;
/// `spare` is room for it.
fn take_multiple<F: PrimeField>(
    left: &mut Vec<Entry>,
    spare: &mut Vec<Entry>,
    others: &[Entry],
) -> Result<(), NoMemory>
    requires line { (size : ℕ) × AreEntries F.P size left.old.items }
    requires others { (size : ℕ) × AreEntries F.P size others.now }
    requires ends { (row : ℕ) × EndsAt row (value_at left.old.items)
        × EndsAt row (value_at others.now) }
    ensures { OnOk result ((row size : ℕ) → EndsAt row (value_at left.old.items)
        → EndsAt row (value_at others.now) → AreEntries F.P size left.old.items
        → AreEntries F.P size others.now
        → left.new.items ≡ entries_less F.P size row left.old.items others.now) }
{
    element_laws::<F>();
    let value = F::of(last_value(left));
    let factor = quotient(value, F::of(last_value(others)));
    subtract_into(spare, left, factor, others)?;
    swap(left, spare);
    Ok(())
}
