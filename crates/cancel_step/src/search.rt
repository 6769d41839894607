//! The search for a pivot. Columns are counted from the first of the greatest degree on, and then
//! down through the degrees; the pivot is the last entry of the first column that has one. An empty
//! column stays empty, so that searches which begin where the last one ended are one pass together.

ghost use Rattle.std.specs.Prelude.{◌≡◌, ◌↔◌, ℕ, ◌<◌, ◌≤◌, [], true, IfSome, length};
ghost use Rattle.std.specs.Prelude.{pos, ◌-ℤ◌};
ghost use Rattle.kh_types.specs.Complex.{IsPivot, is_zero};
ghost use Rattle.sparse_block.specs.Complexes.{column_of, high_of, place_count};
ghost use Rattle.sparse_block.specs.Entries.{entries_of};

use crate::passing::{degree_count, degree_down};
use crate::reading::last_row;
use prime_field::PrimeField;
use sparse_block::{Complex, Pivot, complex_laws};

/// A pivot, and where the search met it.
#[derive(Clone, Copy, Debug, PartialEq, Eq)]
pub struct Found {
    /// The pivot.
    pub pivot: Pivot,
    /// A hint for the next search, which then begins at the pivot's column: how many columns come
    /// before it, as far as a u32 counts them. No clause rests on it.
    pub hint: u32,
}

/// An entry other than zero, searched from a hint on: the number of columns that are left out at
/// first. The search goes round once; a number past the last column begins at the first.
pub fn look<F: PrimeField>(complex: &Complex<F>, hint: u32) -> Option<Pivot>
    ensures some { IfSome result (λ pivot. IsPivot complex.now.complex pivot) }
    ensures none { (result ≡ None) ↔ (is_zero complex.now.complex ≡ true) }
{
    match find(complex, hint) {
        Some(found) => Some(found.pivot),
        None => None,
    }
}

/// The same, with a hint for the next search.
pub fn find<F: PrimeField>(complex: &Complex<F>, hint: u32) -> Option<Found>
    ensures some { IfSome result (λ found. IsPivot complex.now.complex found.pivot) }
    ensures none { (result ≡ None) ↔ (is_zero complex.now.complex ≡ true) }
{
    let start = start_of(complex, hint);
    match search_from(complex, start) {
        Some(found) => Some(found),
        None => search_from(complex, FIRST),
    }
}

/// A column, by the number of its degree from the greatest on, and its place.
#[derive(Clone, Copy)]
struct Start {
    number: u16,
    column: u32,
    /// How many columns the degrees before have.
    before: u32,
}

/// The first column of the greatest degree.
const FIRST: Start = Start {
    number: 0,
    column: 0,
    before: 0,
};

/// The column at which a search begins.
fn start_of<F: PrimeField>(complex: &Complex<F>, hint: u32) -> Start {
    let mut left = hint;
    'degrees: for number in 0..degree_count(complex) {
        let places = complex.places(degree_down(complex, number));
        if left < places {
            return Start {
                number,
                column: left,
                before: hint.saturating_sub(left),
            };
        }
        left -= places;
    }
    FIRST
}

/// The last entry of the first column with an entry, from a column on to the end.
fn search_from<F: PrimeField>(complex: &Complex<F>, start: Start) -> Option<Found>
    ensures some { IfSome result (λ found. IsPivot complex.now.complex found.pivot) }
    ensures none { result ≡ None → start.number ≡ 0 → start.column ≡ 0
        → is_zero complex.now.complex ≡ true }
{
    complex_laws(complex);
    let mut from = start.column;
    let mut before = start.before;
    'degrees: for number in start.number..degree_count(complex) {
        let degree = degree_down(complex, number);
        if let Some(pivot) = search_degree(complex, degree, from) {
            let hint = before.saturating_add(pivot.column);
            return Some(Found { pivot, hint });
        }
        from = 0;
        before = before.saturating_add(complex.places(degree));
    }
    None
}

/// The last entry of the first column with an entry, from a column of a degree on.
fn search_degree<F: PrimeField>(complex: &Complex<F>, degree: i16, from: u32) -> Option<Pivot>
    ensures some { IfSome result (λ pivot. IsPivot complex.now.complex pivot) }
    ensures none { result ≡ None → (column : ℕ) → from ≤ column
        → entries_of (column_of complex.now.complex degree column) ≡ [] }
{
    complex_laws(complex);
    'columns: for column in from..complex.columns_left(degree) {
        if let Some(row) = last_row(complex, degree, column) {
            return Some(Pivot {
                degree,
                column,
                row,
            });
        }
    }
    None
}
