//! All cancellations of a complex, in one pass over its columns. An empty column stays empty, so
//! that a column that was passed has no entry again.

ghost use Rattle.std.specs.Prelude.{◌≡◌, ℕ, ◌<◌, [], true, OnOk};
ghost use Rattle.kh_types.specs.Complex.{is_zero};
ghost use Rattle.sparse_block.specs.Complexes.{column_of};
ghost use Rattle.sparse_block.specs.Entries.{entries_of};
ghost use Rattle.sparse_block.specs.Histories.{ComesByCancelling};

use crate::applying::cancel_with;
use crate::passing::{degree_count, degree_down};
use crate::reading::last_row;
use kh_types::NoMemory;
use prime_field::PrimeField;
use prime_field::laws::element_laws;
use sparse_block::{Complex, Entry, Pivot, complex_laws};
use std::alloc::Global;

/// Cancels until no entry is left: degrees from the greatest down, the columns of each in order,
/// and of each the last entry. Where memory runs out, some cancellations have been done.
pub fn finish<F: PrimeField>(alloc: Global, complex: &mut Complex<F>) -> Result<(), NoMemory>
    ensures zero { OnOk result (is_zero complex.new.complex ≡ true) }
    ensures history { ComesByCancelling F.P complex.old.complex complex.new.complex }
    ensures names { complex.new.names ≡ complex.old.names }
{
    element_laws::<F>();
    complex_laws(complex);
    let mut scratch = Vec::new(alloc);
    'degrees: for number in 0..degree_count(complex) {
        let degree = degree_down(complex, number);
        clear_degree(&mut scratch, complex, degree)?;
    }
    Ok(())
}

/// Cancels until no column of a degree has an entry.
fn clear_degree<F: PrimeField>(
    scratch: &mut Vec<Entry>,
    complex: &mut Complex<F>,
    degree: i16,
) -> Result<(), NoMemory>
    ensures empty { OnOk result ((column : ℕ)
        → entries_of (column_of complex.new.complex degree column) ≡ []) }
    ensures history { ComesByCancelling F.P complex.old.complex complex.new.complex }
    ensures names { complex.new.names ≡ complex.old.names }
{
    element_laws::<F>();
    complex_laws(complex);
    'columns: for column in 0..complex.columns_left(degree) {
        clear_column(scratch, complex, degree, column)?;
    }
    Ok(())
}

/// Cancels the last entry of a column, if it has one, and so leaves the column empty.
fn clear_column<F: PrimeField>(
    scratch: &mut Vec<Entry>,
    complex: &mut Complex<F>,
    degree: i16,
    column: u32,
) -> Result<(), NoMemory>
    ensures empty { OnOk result
        (entries_of (column_of complex.new.complex degree column) ≡ []) }
    ensures history { ComesByCancelling F.P complex.old.complex complex.new.complex }
    ensures names { complex.new.names ≡ complex.old.names }
{
    element_laws::<F>();
    complex_laws(complex);
    match last_row(complex, degree, column) {
        Some(row) => cancel_with(
            scratch,
            complex,
            Pivot {
                degree,
                column,
                row,
            },
        ),
        None => Ok(()),
    }
}
