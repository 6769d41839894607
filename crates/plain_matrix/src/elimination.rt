//! The plain rank, by elimination.

ghost use Rattle.std.specs.Prelude.{◌≡◌, ◌<◌, ◌^◌, length, map, true, vec_len, IfOk};
ghost use Rattle.std.specs.List.{position};
ghost use Rattle.kh_types.specs.Rank.{has_entry, rank, reduced_by};
ghost use Rattle.plain_matrix.specs.Inside.{values_of};

use crate::Dense;
use crate::rows::{has_entry, reduced};
use kh_types::NoMemory;
use prime_field::PrimeField;
use std::alloc::Global;

/// The plain rank: how many pivots Gauss's elimination takes, where each turn takes the first row
/// with an entry other than 0, and its first such entry.
pub fn rank<F: PrimeField>(alloc: Global, matrix: &Dense<F>) -> Result<u32, NoMemory>
    ensures { IfOk result (λ found. found ≡ rank F.P matrix.now.rows) }
{
    let rows = copied_rows(alloc, matrix.row_list())?;
    rank_of_rows(alloc, rows)
}

#[tactic(auto, using(crate::proofs::EliminationLemmas::turns))]
fn rank_of_rows<F: PrimeField>(alloc: Global, rows: Vec<Vec<F>>) -> Result<u32, NoMemory>
    requires { vec_len rows < 2 ^ 32 }
    ensures { IfOk result (λ found. found ≡ rank F.P (values_of F.value_of rows.items)) }
{
    let mut rows = rows;
    let mut found = 0;
    'rows: while let Some(at) = first_row(&rows) {
        let pivot = rows.remove(at);
        rows = reduced_by(alloc, &pivot, &rows)?;
        found += 1;
    }
    Ok(found)
}

/// The place of the first row with an entry other than 0.
fn first_row<F: PrimeField>(rows: &[Vec<F>]) -> Option<usize>
    ensures { result ≡ position (λ row. has_entry (map F.value_of row.items)) rows.now }
{
    rows.iter().position(|row| has_entry(row))
}

/// What a pivot leaves of the other rows.
fn reduced_by<F: PrimeField>(
    alloc: Global,
    pivot: &[F],
    others: &[Vec<F>],
) -> Result<Vec<Vec<F>>, NoMemory>
    requires { has_entry (map F.value_of pivot.now) ≡ true }
    ensures rows { IfOk result (λ made. values_of F.value_of made.items
        ≡ reduced_by F.P (map F.value_of pivot.now) (values_of F.value_of others.now)) }
    ensures size { IfOk result (λ made. vec_len made ≡ length others.now) }
{
    let mut made = Vec::new(alloc);
    'rows: for row in others {
        made.push(reduced(alloc, pivot, row)?)?;
    }
    Ok(made)
}

fn copied_rows<F: PrimeField>(alloc: Global, rows: &[Vec<F>]) -> Result<Vec<Vec<F>>, NoMemory>
    ensures values { IfOk result (λ made.
        values_of F.value_of made.items ≡ values_of F.value_of rows.now) }
    ensures size { IfOk result (λ made. vec_len made ≡ length rows.now) }
{
    let mut made = Vec::with_capacity(alloc, rows.len())?;
    'rows: for row in rows {
        made.push(copied_row(alloc, row)?)?;
    }
    Ok(made)
}

fn copied_row<F: PrimeField>(alloc: Global, row: &[F]) -> Result<Vec<F>, NoMemory>
    ensures { IfOk result (λ made. made.items ≡ row.now) }
{
    Ok(row.iter().copied().collect(alloc)?)
}
