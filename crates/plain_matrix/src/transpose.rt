//! The transpose.

ghost use Rattle.std.specs.Prelude.{◌≡◌, map, IfOk};
ghost use Rattle.plain_matrix.specs.Inside.{values_of};
ghost use Rattle.plain_matrix.specs.Matrices.{matrix_column, transpose};

use crate::rows::entry;
use crate::{Dense, matrix_laws};
use kh_types::NoMemory;
use prime_field::PrimeField;
use std::alloc::Global;

/// The transpose: its rows are the columns of the matrix, and its columns the rows.
pub fn transposed<F: PrimeField>(alloc: Global, matrix: &Dense<F>) -> Result<Dense<F>, NoMemory>
    ensures { IfOk result (λ made. made ≡ transpose matrix.now) }
{
    matrix_laws(matrix);
    let rows = matrix.row_list();
    let columns = matrix.columns();
    let mut made = Vec::with_capacity(alloc, columns as usize)?;
    for column in 0..columns {
        made.push(column_of(alloc, rows, column as usize)?)?;
    }
    Ok(Dense::of_rows(made, matrix.rows()))
}

/// The entry of each row at a column.
fn column_of<F: PrimeField>(
    alloc: Global,
    rows: &[Vec<F>],
    column: usize,
) -> Result<Vec<F>, NoMemory>
    ensures { IfOk result (λ made. map F.value_of made.items
        ≡ matrix_column (values_of F.value_of rows.now) column) }
{
    let mut made = Vec::with_capacity(alloc, rows.len())?;
    'rows: for row in rows {
        made.push(entry(row, column))?;
    }
    Ok(made)
}
