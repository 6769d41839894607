//! Copies of what a cancellation reads and changes.

ghost use Rattle.std.specs.Prelude.{◌≡◌, [], ◌++◌, map, IfOk, OnOk};
ghost use Rattle.kh_types.specs.Complex.{IsPivot};
ghost use Rattle.cancel_step.specs.Copies.{copied, line_across};
ghost use Rattle.cancel_step.specs.Sides.{line_on};

use crate::copied_lines::{CopiedLines, SomeLines};
use crate::reading::{entries_beside, own_entries};
use crate::side::Side;
use kh_types::NoMemory;
use prime_field::PrimeField;
use sparse_block::{Complex, Entry, Pivot, complex_laws};
use std::alloc::Global;
use std::marker::{Model, PhantomData};

/// A pivot, with copies of the columns that have an entry in its row, and of the rows that have one
/// in its column.
#[derive(Drop)]
pub struct Look<F: PrimeField> {
    pub(crate) pivot: Pivot,
    /// The columns, and behind them the rows.
    lines: CopiedLines,
    /// How many of the lines are columns.
    count: usize,
    pub(crate) field: PhantomData<F>,
}

impl<F: PrimeField> Model for Look<F> {
    ghost use Rattle.cancel_step.specs.Copies.{Copied, WasCopied, split_parts};

    ghost Value = { Copied };

    ghost view = { λ look. split_parts look.pivot look.count look.lines };

    ghost invariant = { λ look. WasCopied F.P (split_parts look.pivot look.count look.lines) };
}

impl<F: PrimeField> Look<F> {
    /// The pivot.
    pub fn pivot(&self) -> Pivot
        ensures { result ≡ self.now.pivot }
    {
        self.pivot
    }

    /// The columns that were copied.
    pub(crate) fn columns(&self) -> SomeLines<'_>
        ensures { result ≡ self.now.columns }
    {
        self.lines.first(self.count)
    }

    /// The rows that were copied.
    pub(crate) fn rows(&self) -> SomeLines<'_>
        ensures { result ≡ self.now.rows }
    {
        self.lines.behind(self.count)
    }
}

/// Copies what the cancellation of a pivot reads and changes in the pivot's own differential.
pub fn copy<F: PrimeField>(
    alloc: Global,
    complex: &Complex<F>,
    pivot: Pivot,
) -> Result<Look<F>, NoMemory>
    requires { IsPivot complex.now.complex pivot }
    ensures { IfOk result (λ look. look ≡ copied complex.now.complex pivot) }
{
    complex_laws(complex);
    let row = own_entries(complex, Side::Rows, pivot);
    let column = own_entries(complex, Side::Columns, pivot);
    let mut lines = room_for(alloc, complex, pivot, row, column)?;
    copy_lines(&mut lines, complex, Side::Columns, pivot, row)?;
    let count = lines.len();
    copy_lines(&mut lines, complex, Side::Rows, pivot, column)?;
    Ok(Look {
        pivot,
        lines,
        count,
        field: PhantomData,
    })
}

/// Copies the lines of a side at the places of the entries of a line across.
fn copy_lines<F: PrimeField>(
    lines: &mut CopiedLines,
    complex: &Complex<F>,
    side: Side,
    pivot: Pivot,
    across: &[Entry],
) -> Result<(), NoMemory>
    ensures { OnOk result (lines.new ≡ lines.old
        ++ map (line_across (line_on side complex.now.complex pivot.degree)) across.now) }
{
    'entries: for entry in across {
        let place = entry.place();
        lines.push(place, entries_beside(complex, side, pivot, place))?;
    }
    Ok(())
}

/// No lines, with room for the columns at the places of a row's entries, and for the rows at those
/// of a column's.
fn room_for<F: PrimeField>(
    alloc: Global,
    complex: &Complex<F>,
    pivot: Pivot,
    row: &[Entry],
    column: &[Entry],
) -> Result<CopiedLines, NoMemory>
    ensures { IfOk result (λ made. made ≡ []) }
{
    let lines = row.len().saturating_add(column.len());
    let columns = entries_across(complex, Side::Columns, pivot, row);
    let rows = entries_across(complex, Side::Rows, pivot, column);
    CopiedLines::with_room(alloc, lines, columns.saturating_add(rows))
}

/// How many entries the lines of a side have at the places of the entries of a line across. No
/// clause rests on it.
fn entries_across<F: PrimeField>(
    complex: &Complex<F>,
    side: Side,
    pivot: Pivot,
    across: &[Entry],
) -> usize {
    let mut count = 0usize;
    'entries: for entry in across {
        let line = entries_beside(complex, side, pivot, entry.place());
        count = count.saturating_add(line.len());
    }
    count
}
