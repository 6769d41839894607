//! The reduction of the columns of one degree, in order.

ghost use Rattle.std.specs.Prelude.{◌≡◌, ◌<◌, ◌^◌, [], pos, ◌+ℤ◌, length, slice_index_or, IfOk};
ghost use Rattle.sparse_block.specs.Complexes.{place_count};
ghost use Rattle.column_reduction.specs.StoredColumns.{AreFirstReduced, full_columns};

use crate::left_column::left_of_column;
use crate::reduced_column::Scratch;
use crate::stored_column::{StoredColumn, StoredColumns, no_columns, store};
use kh_types::NoMemory;
use prime_field::PrimeField;
use prime_field::laws::element_laws;
use sparse_block::ColumnSource;

/// Reduces the columns out of degree number `k` whose places are alive, each when its turn comes;
/// there are `height` rows.
pub(crate) fn reduce_degree<F: PrimeField, S: ColumnSource<F>>(
    source: &mut S,
    scratch: &mut Scratch,
    k: usize,
    height: usize,
    alive: &[bool],
) -> Result<Vec<StoredColumn>, NoMemory>
    requires degree { k < length (S.whole source.old).names }
    requires places { length alive.now ≡ length (slice_index_or (S.whole source.old).names k []) }
    requires count { length alive.now < 2 ^ 32 }
    requires height { height ≡ place_count (S.whole source.old).complex
        ((S.whole source.old).complex.low +ℤ pos k +ℤ pos 1) }
    ensures same { source.new ≡ source.old }
    ensures reduced { IfOk result (λ made. AreFirstReduced F.P (S.whole source.old).complex
        ((S.whole source.old).complex.low +ℤ pos k) alive.now (length alive.now)
        (full_columns (S.whole source.old).complex k made.items)) }
{
    element_laws::<F>();
    let mut stored = no_columns(*scratch.left.allocator(), height)?;
    'places: for place in 0..alive.len() {
        let found = left_of_column::<F, S>(source, scratch, &stored, k, place, alive[place])?;
        store(&mut stored, found)?;
    }
    let StoredColumns { columns, .. } = stored;
    Ok(columns)
}
