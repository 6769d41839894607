//! Whether a complex has the columns and rows that were copied, and the least column that tells.

ghost use Rattle.std.specs.Prelude.{◌≡◌, ◌↔◌, ℕ, true};
ghost use Rattle.sparse_block.specs.Changes.{placed};
ghost use Rattle.sparse_block.specs.Entries.{AreEntries};
ghost use Rattle.sparse_block.specs.Least.{FindsLeast};
ghost use Rattle.cancel_step.specs.Foreign.{IsOtherColumn, IsOtherRowAt, ShowsAt};
ghost use Rattle.cancel_step.specs.Foreign.{ShowsBetween, ShowsIn, lesser_of};
ghost use Rattle.cancel_step.specs.Lines.{AreLines};
ghost use Rattle.cancel_step.specs.Sides.{IsOtherOn};

use crate::Look;
use crate::copied_lines::SomeLines;
use crate::side::Side;
use prime_field::PrimeField;
use sparse_block::{Complex, Entry, column_at, complex_laws, first_difference, row_at};

/// The least column at which a difference between a look and a complex shows.
pub(crate) fn foreign_column<F: PrimeField>(complex: &Complex<F>, look: &Look<F>) -> Option<u32>
    ensures { FindsLeast (ShowsAt look.now complex.now.complex) result }
{
    let pivot = look.pivot;
    other_line(complex, pivot.degree, &look.columns(), &look.rows())
}

/// The least column at which a difference between columns and rows and those of a complex shows.
fn other_line<F: PrimeField>(
    complex: &Complex<F>,
    degree: i16,
    columns: &SomeLines<'_>,
    rows: &SomeLines<'_>,
) -> Option<u32>
    requires columns { (p : ℕ) × (size : ℕ) × AreLines p size columns.now }
    requires rows { (p : ℕ) × (size : ℕ) × AreLines p size rows.now }
    ensures { FindsLeast (ShowsBetween complex.now.complex degree columns.now rows.now) result }
{
    lesser(
        in_lines(complex, Side::Columns, degree, columns),
        in_lines(complex, Side::Rows, degree, rows),
    )
}

/// The least column at which a difference between lines of a side and those of a complex shows.
fn in_lines<F: PrimeField>(
    complex: &Complex<F>,
    side: Side,
    degree: i16,
    lines: &SomeLines<'_>,
) -> Option<u32>
    requires { (p : ℕ) × (size : ℕ) × AreLines p size lines.now }
    ensures { FindsLeast (ShowsIn (IsOtherOn side complex.now.complex degree) lines.now) result }
{
    let mut least = None;
    'lines: for k in 0..lines.len() {
        let (place, entries) = lines.at(k);
        least = lesser(least, in_line(complex, side, degree, place, entries));
    }
    least
}

/// The least column at which a line of a side differs from that of the complex.
fn in_line<F: PrimeField>(
    complex: &Complex<F>,
    side: Side,
    degree: i16,
    place: u32,
    entries: &[Entry],
) -> Option<u32>
    requires { (p : ℕ) × (size : ℕ) × AreEntries p size entries.now }
    ensures { FindsLeast
        (IsOtherOn side complex.now.complex degree (placed place entries.now)) result }
{
    match side {
        Side::Columns => in_column(complex, degree, place, entries),
        Side::Rows => in_row(complex, degree, place, entries),
    }
}

/// The place of a column, if it is not that of the complex.
fn in_column<F: PrimeField>(
    complex: &Complex<F>,
    degree: i16,
    place: u32,
    entries: &[Entry],
) -> Option<u32>
    ensures { FindsLeast
        (IsOtherColumn complex.now.complex degree (placed place entries.now)) result }
{
    if are_same(entries, column_at(complex, degree, place)) {
        return None;
    }
    Some(place)
}

/// The least column at which a row has another value than that of the complex.
fn in_row<F: PrimeField>(
    complex: &Complex<F>,
    degree: i16,
    place: u32,
    entries: &[Entry],
) -> Option<u32>
    requires { (p : ℕ) × (size : ℕ) × AreEntries p size entries.now }
    ensures { FindsLeast
        (IsOtherRowAt complex.now.complex degree (placed place entries.now)) result }
{
    complex_laws(complex);
    let row = row_at(complex, degree, place);
    if are_same(entries, row) {
        return None;
    }
    first_difference(entries, row)
}

fn are_same(left: &[Entry], right: &[Entry]) -> bool
    ensures { (result ≡ true) ↔ (left.now ≡ right.now) }
{
    left == right
}

/// The lesser of two numbers that were found, or the only one.
fn lesser(left: Option<u32>, right: Option<u32>) -> Option<u32>
    ensures { result ≡ lesser_of left right }
{
    match (left, right) {
        (Some(left), Some(right)) => Some(left.min(right)),
        (None, found) => found,
        (found, None) => found,
    }
}
