//! Columns and rows of a complex at any degree and place, and single values.

ghost use Rattle.std.specs.Prelude.{◌≡◌};
ghost use Rattle.sparse_block.specs.Complexes.{column_of, row_of};
ghost use Rattle.sparse_block.specs.Entries.{entries_of, value_at};

use crate::laws::complex_laws;
use crate::{Complex, Entry};
use prime_field::PrimeField;

/// The entries of a column; none where the complex has no such column.
pub fn column_at<F: PrimeField>(complex: &Complex<F>, i: i16, place: u32) -> &[Entry]
    ensures { result.now ≡ entries_of (column_of complex.now.complex i place) }
{
    complex_laws(complex);
    if complex.places(i) <= place {
        return &[];
    }
    complex.column(i, place)
}

/// The entries of a row; none where the complex has no such row.
pub fn row_at<F: PrimeField>(complex: &Complex<F>, i: i16, place: u32) -> &[Entry]
    ensures { result.now ≡ entries_of (row_of complex.now.complex i place) }
{
    complex_laws(complex);
    if i < complex.low() || complex.high() <= i {
        return &[];
    }
    if complex.places(i + 1) <= place {
        return &[];
    }
    complex.row(i, place)
}

/// The value at a place: that of the entry which has it, and 0 where there is none.
pub fn value_at(entries: &[Entry], place: u32) -> u8
    ensures { result ≡ value_at entries.now place }
{
    match entries.iter().find(|entry| entry.place() == place) {
        Some(entry) => entry.value(),
        None => 0,
    }
}
