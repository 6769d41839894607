//! A matrix with all its entries in memory.

ghost use Rattle.std.specs.Prelude.{◌≡◌, ◌<◌, ◌^◌, length, map, replicate, IfOk};
ghost use Rattle.kh_types.specs.Complex.{entry_in};
ghost use Rattle.kh_types.specs.MatrixRanks.{IsMatrix};
ghost use Rattle.plain_matrix.specs.Matrices.{with_entry, zero_matrix};
ghost use Rattle.plain_matrix.specs.Inside.{HasSize, matrix_of, values_of};

use kh_types::NoMemory;
use prime_field::PrimeField;
use prime_field::laws::element_laws;
use std::alloc::Global;
use std::marker::Model;

/// A matrix over a field, by its rows. Rows and columns are numbered from 0. Contracts see it as
/// its rows, lists of the values of the entries, and its number of columns.
#[derive(Drop)]
pub struct Dense<F: PrimeField> {
    rows: Vec<Vec<F>>,
    columns: u32,
}

impl<F: PrimeField> Model for Dense<F> {
    ghost use Rattle.plain_matrix.specs.Matrices.{Matrix};
    ghost use Rattle.plain_matrix.specs.Inside.{HasSize, matrix_of};

    ghost Value = { Matrix };

    ghost view = { λ dense. matrix_of F.value_of dense.rows.items dense.columns };

    ghost invariant = { λ dense. HasSize dense.rows.items dense.columns };
}

impl<F: PrimeField> Dense<F> {
    /// The matrix of zeros.
    pub fn zero(alloc: Global, rows: u32, columns: u32) -> Result<Dense<F>, NoMemory>
        ensures { IfOk result (λ made. made ≡ zero_matrix rows columns) }
    {
        let mut made = Vec::new(alloc);
        for _ in 0..rows {
            made.push(zero_row(alloc, columns)?)?;
        }
        Ok(Dense {
            rows: made,
            columns,
        })
    }

    /// The matrix of these rows, each of which has `columns` entries.
    pub(crate) fn of_rows(rows: Vec<Vec<F>>, columns: u32) -> Dense<F>
        requires { HasSize rows.items columns }
        ensures { result ≡ matrix_of F.value_of rows.items columns }
    {
        Dense { rows, columns }
    }

    /// The rows, as they are held.
    pub(crate) fn row_list(&self) -> &[Vec<F>]
        ensures values { values_of F.value_of result.now ≡ self.now.rows }
        ensures size { HasSize result.now self.now.columns }
    {
        &self.rows
    }

    /// How many rows there are.
    pub fn rows(&self) -> u32
        ensures { result ≡ length self.now.rows }
    {
        self.rows.len() as u32
    }

    /// How many columns there are.
    pub fn columns(&self) -> u32
        ensures { result ≡ self.now.columns }
    {
        self.columns
    }

    /// The entry at a row and a column, which the matrix has.
    pub fn entry(&self, row: u32, column: u32) -> F
        requires row { row < length self.now.rows }
        requires column { column < self.now.columns }
        ensures { F.value_of result ≡ entry_in self.now.rows row column }
    {
        let entries = &self.rows[row as usize];
        entries[column as usize]
    }

    /// Puts an entry at a row and a column, which the matrix has; all others stay.
    pub fn set(&mut self, row: u32, column: u32, value: F)
        requires row { row < length self.old.rows }
        requires column { column < self.old.columns }
        ensures { self.new ≡ with_entry self.old row column (F.value_of value) }
    {
        self.rows[row as usize][column as usize] = value;
    }
}

/// The laws of a matrix: its rows have one length, and its entries are below `P`. It does nothing:
/// a function calls it, and its proof then has them at hand.
pub fn matrix_laws<F: PrimeField>(matrix: &Dense<F>)
    ensures matrix { IsMatrix F.P matrix.now.columns matrix.now.rows }
    ensures rows { length matrix.now.rows < 2 ^ 32 }
{
    element_laws::<F>();
    let _ = &matrix.columns;
}

fn zero_row<F: PrimeField>(alloc: Global, columns: u32) -> Result<Vec<F>, NoMemory>
    ensures { IfOk result (λ row. map F.value_of row.items ≡ replicate columns 0) }
{
    let mut row = Vec::with_capacity(alloc, columns as usize)?;
    for _ in 0..columns {
        row.push(F::of(0))?;
    }
    Ok(row)
}
