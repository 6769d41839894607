//! The lines of a complex by their side, and the last entry of a column.

ghost use Rattle.std.specs.Prelude.{◌≡◌, ◌≢◌};
ghost use Rattle.std.specs.Prelude.{IfSome, []};
ghost use Rattle.kh_types.specs.Complex.{entry_of};
ghost use Rattle.sparse_block.specs.Complexes.{column_of};
ghost use Rattle.sparse_block.specs.Entries.{entries_of};
ghost use Rattle.cancel_step.specs.Sides.{line_on, place_on};

use crate::side::{Side, place_on};
use prime_field::PrimeField;
use sparse_block::{Complex, Entry, Pivot, column_at, complex_laws, row_at};

/// The entries of the line of a side in which a pivot stands.
pub(crate) fn own_entries<F: PrimeField>(complex: &Complex<F>, side: Side, pivot: Pivot) -> &[Entry]
    ensures { result.now ≡ entries_of
        (line_on side complex.now.complex pivot.degree (place_on side pivot)) }
{
    entries_beside(complex, side, pivot, place_on(side, pivot))
}

/// The entries of a line of a side, in a pivot's differential.
pub(crate) fn entries_beside<F: PrimeField>(
    complex: &Complex<F>,
    side: Side,
    pivot: Pivot,
    place: u32,
) -> &[Entry]
    ensures { result.now ≡ entries_of (line_on side complex.now.complex pivot.degree place) }
{
    match side {
        Side::Columns => column_at(complex, pivot.degree, place),
        Side::Rows => row_at(complex, pivot.degree, place),
    }
}

/// The row of the last entry of a column; none where the column has no entry.
pub(crate) fn last_row<F: PrimeField>(complex: &Complex<F>, i: i16, column: u32) -> Option<u32>
    ensures some { IfSome result (λ row. entry_of complex.now.complex i row column ≢ 0) }
    ensures none { result ≡ None → entries_of (column_of complex.now.complex i column) ≡ [] }
{
    complex_laws(complex);
    let entries = column_at(complex, i, column);
    if entries.is_empty() {
        return None;
    }
    Some(entries[entries.len() - 1].place())
}
