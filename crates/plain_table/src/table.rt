//! The homology table, row by row.

ghost use Rattle.std.specs.Prelude.{◌≡◌, ◌≤◌, ◌*◌, ◌∷◌, [], ◌++◌, pos, neg_ℤ, ◌-ℤ◌, ◌≤ℤ◌, IfOk, OnOk};
ghost use Rattle.std.specs.List.{filter};
ghost use Rattle.kh_types.specs.Table.{is_shown, rows_at, rows_within};
ghost use Rattle.kh_types.specs.declared.limits.TheConstants.{EXPONENT};

use crate::cube::Cube;
use kh_types::NoMemory;
use prime_field::PrimeField;
use std::alloc::Global;
use std::marker::Model;

/// A row of a homology table: the quantum degree, the homological degree and the dimension.
/// Contracts see the definition's row.
#[derive(Clone, Copy)]
pub struct Row {
    pub j: i16,
    pub i: i16,
    pub dim: usize,
}

impl Model for Row {
    ghost use Rattle.kh_types.specs.Table as tables;

    ghost Value = { tables.Row };

    ghost view = { λ row. record { j = row.j; i = row.i; dim = row.dim } };

    ghost inverse = { λ row. record { j = row.j; i = row.i; dim = row.dim } };
}

/// The rows with a dimension above 0, ascending by j, then by i, with j up to a size.
#[tactic(auto, using(crate::proofs::TableLemmas::degrees_more))]
pub fn rows<F: PrimeField>(alloc: Global, cube: &Cube, most: usize) -> Result<Vec<Row>, NoMemory>
    requires { most ≤ EXPONENT }
    ensures { IfOk result (λ made. made.items ≡ rows_within most F.P cube.now.diagram) }
{
    let mut made = Vec::new(alloc);
    'degrees: for k in 0..2 * most + 1 {
        push_rows::<F>(alloc, &mut made, cube, degree(k, most))?;
    }
    Ok(made)
}

/// Adds the rows of one quantum degree.
#[tactic(auto, using(crate::proofs::TableLemmas::degrees))]
fn push_rows<F: PrimeField>(
    alloc: Global,
    made: &mut Vec<Row>,
    cube: &Cube,
    j: i16,
) -> Result<(), NoMemory>
    ensures { OnOk result (made.new.items
        ≡ made.old.items ++ rows_at F.P cube.now.diagram j) }
{
    let most = cube.crossing_count();
    'degrees: for k in 0..2 * most + 1 {
        let i = degree(k, most);
        let dim = cube.dimension::<F>(alloc, i, j)?;
        push_row(made, Row { j, i, dim })?;
    }
    Ok(())
}

/// The number at a place, counted from 0, among those from `-most` on.
fn degree(place: usize, most: usize) -> i16
    requires most { most ≤ EXPONENT }
    requires place { place ≤ 2 * most }
    ensures degree { result ≡ pos place -ℤ pos most }
    ensures low { neg_ℤ (pos EXPONENT) ≤ℤ result }
    ensures high { result ≤ℤ pos EXPONENT }
{
    place as i16 - most as i16
}

/// Adds a row where its dimension is above 0.
fn push_row(made: &mut Vec<Row>, row: Row) -> Result<(), NoMemory>
    ensures { OnOk result (made.new.items ≡ made.old.items ++ filter is_shown (row ∷ [])) }
{
    if row.dim > 0 {
        made.push(row)?;
    }
    Ok(())
}
