//! Cancellations of a complex: by a patch, and in place.

ghost use Rattle.std.specs.Prelude.{◌≡◌, ◌↔◌, ◌⊎◌, length, true, IfErr, IfOk, IsErr, OnErr, OnOk};
ghost use Rattle.kh_types.specs.Complex.{IsPivot, cancel};
ghost use Rattle.sparse_block.specs.Complexes.{column_of, row_of};
ghost use Rattle.sparse_block.specs.Entries.{entries_of};
ghost use Rattle.cancel_step.specs.Copies.{columns_across, rows_across};
ghost use Rattle.cancel_step.specs.Foreign.{IsForeign, ShowsAt};
ghost use Rattle.sparse_block.specs.Least.{IsLeast};
ghost use Rattle.cancel_step.specs.Sides.{lines_across};

use crate::comparing::foreign_column;
use crate::patched::Update;
use crate::reading::{entries_beside, own_entries};
use crate::side::{Side, other_side, place_on};
use crate::{Foreign, Patch};
use kh_types::NoMemory;
use prime_field::laws::element_laws;
use prime_field::{PrimeField, quotient};
use smallvec::SmallVec;
use sparse_block::{
    Change, Complex, Entry, Line, Pivot, column_at, complex_laws, row_at, subtract_into, value_at,
};
use std::alloc::Global;

/// Cancels the pivot of a patch. Foreign where a copied column or row is not that of the complex,
/// with the least column where this shows; the complex is then unchanged. Takes no memory.
pub fn apply<F: PrimeField>(complex: &mut Complex<F>, patch: Patch<F>) -> Result<(), Foreign>
    ensures ok { OnOk result
        (complex.new.complex ≡ cancel F.P complex.old.complex patch.pivot) }
    ensures pivot { OnOk result (IsPivot complex.old.complex patch.pivot) }
    ensures names { complex.new.names ≡ complex.old.names }
    ensures foreign { IsErr result ↔ IsForeign patch complex.old.complex }
    ensures carried { IfErr result (λ foreign. (foreign.degree ≡ patch.pivot.degree)
        × IsLeast (ShowsAt patch complex.old.complex) foreign.column) }
    ensures unchanged { OnErr result (complex.new ≡ complex.old) }
{
    if let Some(column) = foreign_column(complex, &patch.look) {
        let degree = patch.look.pivot.degree;
        return Err(Foreign { degree, column });
    }
    apply_fitting(complex, patch);
    Ok(())
}

/// Cancels the pivot of a patch whose copied columns and rows are known to be those of the complex:
/// they are not compared. Takes no memory.
pub fn apply_fitting<F: PrimeField>(complex: &mut Complex<F>, patch: Patch<F>)
    requires { ¬ IsForeign patch complex.old.complex }
    ensures complex { complex.new.complex ≡ cancel F.P complex.old.complex patch.pivot }
    ensures pivot { IsPivot complex.old.complex patch.pivot }
    ensures names { complex.new.names ≡ complex.old.names }
{
    element_laws::<F>();
    complex_laws(complex);
    let Patch { look, update } = patch;
    let pivot = look.pivot;
    match update {
        None => complex.drop_pair(pivot.degree, pivot.column, pivot.row),
        Some(Update { columns, rows }) => exchange(complex, pivot, columns, rows),
    }
}

/// Cancels a pivot in place, where nobody else holds a copy. The complex is unchanged where memory
/// runs out.
pub fn cancel_in_place<F: PrimeField>(
    alloc: Global,
    complex: &mut Complex<F>,
    pivot: Pivot,
) -> Result<(), NoMemory>
    requires { IsPivot complex.old.complex pivot }
    ensures ok { OnOk result (complex.new.complex ≡ cancel F.P complex.old.complex pivot) }
    ensures names { complex.new.names ≡ complex.old.names }
    ensures unchanged { OnErr result (complex.new ≡ complex.old) }
{
    let mut scratch = Vec::new(alloc);
    cancel_with(&mut scratch, complex, pivot)
}

/// The same, with a list in which lines are made, which many cancellations can share. It takes
/// memory by that list's allocator.
pub fn cancel_with<F: PrimeField>(
    scratch: &mut Vec<Entry>,
    complex: &mut Complex<F>,
    pivot: Pivot,
) -> Result<(), NoMemory>
    requires { IsPivot complex.old.complex pivot }
    ensures ok { OnOk result (complex.new.complex ≡ cancel F.P complex.old.complex pivot) }
    ensures names { complex.new.names ≡ complex.old.names }
    ensures unchanged { OnErr result (complex.new ≡ complex.old) }
{
    if is_alone(complex, pivot) {
        complex.drop_pair(pivot.degree, pivot.column, pivot.row);
        return Ok(());
    }
    let columns = lines_after(scratch, complex, Side::Columns, pivot)?;
    let rows = lines_after(scratch, complex, Side::Rows, pivot)?;
    exchange(complex, pivot, columns, rows);
    Ok(())
}

/// Cancels a pivot, given all that this changes of its own differential.
fn exchange<F: PrimeField>(
    complex: &mut Complex<F>,
    pivot: Pivot,
    columns: Vec<Line>,
    rows: Vec<Line>,
)
    requires pivot { IsPivot complex.old.complex pivot }
    requires columns { columns.items ≡ columns_across complex.old.complex pivot
        (cancel F.P complex.old.complex pivot) }
    requires rows { rows.items ≡ rows_across complex.old.complex pivot
        (cancel F.P complex.old.complex pivot) }
    ensures complex { complex.new.complex ≡ cancel F.P complex.old.complex pivot }
    ensures names { complex.new.names ≡ complex.old.names }
{
    element_laws::<F>();
    complex_laws(complex);
    complex.exchange(Change {
        degree: pivot.degree,
        column: pivot.column,
        row: pivot.row,
        columns,
        rows,
    });
}

/// Whether a pivot is the only entry of its column, or of its row.
fn is_alone<F: PrimeField>(complex: &Complex<F>, pivot: Pivot) -> bool
    ensures { result ≡ true
        → (length (entries_of (column_of complex.now.complex pivot.degree pivot.column)) ≡ 1)
        ⊎ (length (entries_of (row_of complex.now.complex pivot.degree pivot.row)) ≡ 1) }
{
    column_at(complex, pivot.degree, pivot.column).len() == 1
        || row_at(complex, pivot.degree, pivot.row).len() == 1
}

/// The lines of a side that have an entry in the pivot's line across, as they are after its
/// cancellation.
fn lines_after<F: PrimeField>(
    scratch: &mut Vec<Entry>,
    complex: &Complex<F>,
    side: Side,
    pivot: Pivot,
) -> Result<Vec<Line>, NoMemory>
    requires { IsPivot complex.now.complex pivot }
    ensures { IfOk result (λ lines. lines.items ≡ lines_across side complex.now.complex pivot
        (cancel F.P complex.now.complex pivot)) }
{
    element_laws::<F>();
    complex_laws(complex);
    let alloc = *scratch.allocator();
    let own = own_entries(complex, side, pivot);
    let across = own_entries(complex, other_side(side), pivot);
    let value = F::of(value_at(own, place_on(other_side(side), pivot)));
    let mut lines = Vec::with_capacity(alloc, across.len())?;
    'entries: for entry in across {
        let place = entry.place();
        let factor = quotient(F::of(entry.value()), value);
        let line = entries_beside(complex, side, pivot, place);
        subtract_into(scratch, line, factor, own)?;
        let entries = SmallVec::from_slice(alloc, scratch)?;
        lines.push(Line { place, entries })?;
    }
    Ok(lines)
}
