//! The next column of which something is left, in one degree and in the degrees above it.

ghost use Rattle.std.specs.Prelude.{◌≡◌, ◌<◌, ◌^◌, [], pos, ◌+ℤ◌, length, map};
ghost use Rattle.std.specs.Prelude.{IfNone, IfOk, IfSome, slice_index_or};
ghost use Rattle.sparse_block.specs.Complexes.{place_count};
ghost use Rattle.sparse_block.specs.Inside.{lists_in};
ghost use Rattle.column_reduction.specs.StoredColumns.{AreStored, full_column, full_columns};
ghost use Rattle.column_reduction.specs.UnderWay.{AllLeaveNone, IsFirstFrom, IsFirstLeft};
ghost use Rattle.column_reduction.specs.UnderWay.{IsFreshTable, LeaveNone};

use crate::left_column::left_of_column;
use crate::reduced_column::Scratch;
use crate::reducing::{alive_at, degree_at};
use crate::stored_column::{StoredColumn, StoredColumns};
use crate::under_way::FoundColumn;
use kh_types::NoMemory;
use prime_field::PrimeField;
use prime_field::laws::element_laws;
use sparse_block::ColumnSource;
use std::alloc::Global;

/// The first column out of degree number `k`, from one place on, of which the stored columns leave
/// something, as it is to be stored.
pub(crate) fn next_left<F: PrimeField, S: ColumnSource<F>>(
    source: &mut S,
    stored: &StoredColumns,
    k: usize,
    alive: &[bool],
    from: usize,
) -> Result<Option<StoredColumn>, NoMemory>
    requires degree { k < length (S.whole source.old).names }
    requires places { length alive.now ≡ length (slice_index_or (S.whole source.old).names k []) }
    requires count { length alive.now < 2 ^ 32 }
    requires height { length stored.now.owners.items ≡ place_count (S.whole source.old).complex
        ((S.whole source.old).complex.low +ℤ pos k +ℤ pos 1) }
    requires stored { AreStored F.P (full_columns (S.whole source.old).complex k
        stored.now.columns.items) stored.now.owners.items }
    ensures same { source.new ≡ source.old }
    ensures none { IfOk result (λ seen. IfNone seen (LeaveNone F.P (S.whole source.old).complex
        ((S.whole source.old).complex.low +ℤ pos k) alive.now
        (full_columns (S.whole source.old).complex k stored.now.columns.items)
        from (length alive.now))) }
    ensures first { IfOk result (λ seen. IfSome seen (λ line. IsFirstLeft F.P
        (S.whole source.old).complex ((S.whole source.old).complex.low +ℤ pos k) alive.now
        (full_columns (S.whole source.old).complex k stored.now.columns.items) from
        (full_column (S.whole source.old).complex k line))) }
{
    element_laws::<F>();
    let mut scratch = Scratch::new(*stored.columns.allocator());
    'places: for place in from..alive.len() {
        let found = left_of_column::<F, S>(source, &mut scratch, stored, k, place, alive[place])?;
        if found.is_some() {
            return Ok(found);
        }
    }
    Ok(None)
}

/// The first column that has an entry, of the degrees from one number on, with a table of its own.
pub(crate) fn first_from<F: PrimeField, S: ColumnSource<F>>(
    alloc: Global,
    source: &mut S,
    alive: &[Vec<bool>],
    from: usize,
) -> Result<Option<FoundColumn>, NoMemory>
    requires { map length (lists_in alive.now) ≡ map length (S.whole source.old).names }
    ensures same { source.new ≡ source.old }
    ensures none { IfOk result (λ seen. IfNone seen (AllLeaveNone F.P
        (S.whole source.old).complex (lists_in alive.now) from (length alive.now))) }
    ensures first { IfOk result (λ seen. IfSome seen (IsFirstFrom F.P
        (S.whole source.old).complex (lists_in alive.now) from)) }
{
    element_laws::<F>();
    let low = source.low();
    'degrees: for k in from..alive.len() {
        let own = alive_at(alive, k);
        let fresh = fresh_table(alloc, alive_at(alive, k + 1).len(), own.len())?;
        let seen = next_left::<F, S>(source, &fresh, k, own, 0)?;
        match seen {
            Some(line) => {
                return Ok(Some(FoundColumn {
                    degree: degree_at(low, k),
                    number: k,
                    line,
                    fresh: Some(fresh),
                }));
            }
            None => {}
        }
    }
    Ok(None)
}

/// No reduced column, rows that none owns, and room for so many columns.
pub(crate) fn fresh_table(
    alloc: Global,
    rows: usize,
    columns: usize,
) -> Result<StoredColumns, NoMemory>
    ensures { IfOk result (IsFreshTable rows columns) }
{
    let columns = Vec::with_capacity(alloc, columns)?;
    let owners = vec![in alloc; None; rows]?;
    Ok(StoredColumns { columns, owners })
}
