//! Rows of a matrix, and what one step of the elimination makes of them.

ghost use Rattle.std.specs.Prelude.{◌≡◌, ◌*◌, map, not, nat_eq, slice_index, true, IfOk};
ghost use Rattle.std.specs.List.{list_any, position, remove};
ghost use Rattle.kh_types.specs.Rank.{cleared, has_entry, lead_of, less_multiple, minus_mod};

use kh_types::NoMemory;
use prime_field::laws::element_laws;
use prime_field::{PrimeField, difference, quotient};
use std::alloc::Global;

/// Whether a row has an entry other than 0.
#[tactic(auto, using(kh_types::proofs::MappedLists::images))]
pub fn has_entry<F: PrimeField>(row: &[F]) -> bool
    ensures { result ≡ has_entry (map F.value_of row.now) }
{
    any_other(row)
}

/// The place of a row's first entry other than 0, or the row's length where it has none.
#[tactic(auto, using(kh_types::proofs::MappedLists::images))]
pub fn lead_of<F: PrimeField>(row: &[F]) -> usize
    ensures { result ≡ lead_of (map F.value_of row.now) }
{
    first_other(row).unwrap_or(row.len())
}

fn any_other<F: PrimeField>(row: &[F]) -> bool
    ensures { result ≡ list_any (λ x. not (nat_eq (F.value_of x) 0)) row.now }
{
    row.iter().any(|x| x.value() != 0)
}

fn first_other<F: PrimeField>(row: &[F]) -> Option<usize>
    ensures { result ≡ position (λ x. not (nat_eq (F.value_of x) 0)) row.now }
{
    row.iter().position(|x| x.value() != 0)
}

/// What is left of a row when the pivot's column has been cleared from it and dropped.
pub fn reduced<F: PrimeField>(alloc: Global, pivot: &[F], row: &[F]) -> Result<Vec<F>, NoMemory>
    requires { has_entry (map F.value_of pivot.now) ≡ true }
    ensures { IfOk result (λ made.
        let values = map F.value_of pivot.now in
        map F.value_of made.items
        ≡ remove (cleared F.P values (lead_of values) (map F.value_of row.now)) (lead_of values)) }
{
    let column = lead_of(pivot);
    let factor = quotient(entry(row, column), entry(pivot, column));
    let mut made = less_multiple(alloc, row, pivot, factor)?;
    drop_column(&mut made, column);
    Ok(made)
}

/// The entry of a row at a place, 0 past its end.
pub fn entry<F: PrimeField>(row: &[F], column: usize) -> F
    ensures { F.value_of result ≡ slice_index (map F.value_of row.now) column }
{
    element_laws::<F>();
    row.get(column).copied().unwrap_or(F::of(0))
}

/// A row less a multiple of another.
fn less_multiple<F: PrimeField>(
    alloc: Global,
    row: &[F],
    pivot: &[F],
    factor: F,
) -> Result<Vec<F>, NoMemory>
    ensures { IfOk result (λ made. map F.value_of made.items ≡ less_multiple F.P
        (map F.value_of row.now) (map F.value_of pivot.now) (F.value_of factor)) }
{
    let count = row.len().min(pivot.len());
    let mut made = Vec::with_capacity(alloc, count)?;
    for k in 0..count {
        made.push(less(row[k], pivot[k], factor))?;
    }
    Ok(made)
}

/// An entry less a multiple of another.
fn less<F: PrimeField>(entry: F, other: F, factor: F) -> F
    ensures { F.value_of result
        ≡ minus_mod F.P (F.value_of entry) (F.value_of factor * F.value_of other) }
{
    difference(entry, factor.mul(other))
}

/// Takes the entry at a place out, where there is one.
fn drop_column<F: PrimeField>(row: &mut Vec<F>, column: usize)
    ensures { row.new.items ≡ remove row.old.items column }
{
    if column < row.len() {
        row.remove(column);
    }
}
