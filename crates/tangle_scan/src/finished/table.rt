//! Homology tables whose dimensions may be large, and their rows, from dimensions by both degrees.

ghost use Rattle.std.specs.Prelude.{◌≡◌, ℕ, ℤ, ◌+◌, ◌*◌, ◌<◌, ◌++◌, [], ◌∷◌, pos, ◌-ℤ◌, IfOk, OnOk};
ghost use Rattle.std.specs.List.{filter};
ghost use Rattle.kh_types.specs.Table.{is_shown};
ghost use Rattle.tangle_scan.specs.CountedRows.{all_rows_by, row_by, rows_by};

use circle_smoothing::Triangle;
use jones_sum::{COEFFICIENTS, exponent_at};
use kh_types::NoMemory;
use std::alloc::Global;
use std::marker::Model;

/// A row of a homology table: the quantum degree j, the homological degree i and the dimension,
/// which may be above what a row of a table from a cube keeps. Contracts see the definition's row.
#[derive(Clone, Copy, Debug, PartialEq, Eq)]
pub struct ScanRow {
    pub j: i16,
    pub i: i16,
    pub dim: u128,
}

impl Model for ScanRow {
    ghost use Rattle.kh_types.specs.Table as tables;

    ghost Value = { tables.Row };

    ghost view = { λ row. record { j = row.j; i = row.i; dim = row.dim } };

    ghost inverse = { λ row. record { j = row.j; i = row.i; dim = row.dim } };
}

/// The homology table of a diagram over a field, as a scan counts it: a row for each two degrees
/// with a dimension above 0, ascending by j, then by i. Contracts see the definition's table.
#[derive(Debug, Drop)]
pub struct ScanTable {
    field: u8,
    rows: Vec<ScanRow>,
}

impl Model for ScanTable {
    ghost use Rattle.kh_types.specs.Table as tables;

    ghost Value = { tables.Table };

    ghost view = { λ table. record { field = table.field; rows = table.rows.items } };
}

impl ScanTable {
    /// The table of a field with these rows.
    pub(crate) fn of_rows(field: u8, rows: Vec<ScanRow>) -> ScanTable
        ensures { result ≡ record { field = field; rows = rows.items } }
    {
        ScanTable { field, rows }
    }

    /// The number of elements of the field.
    pub fn field(&self) -> u8
        ensures { result ≡ self.now.field }
    {
        self.field
    }

    /// The rows.
    pub fn rows(&self) -> &[ScanRow]
        ensures { result.now ≡ self.now.rows }
    {
        &self.rows
    }
}

/// What has a dimension at each homological degree i and each quantum degree j.
pub(crate) trait Dimensions {
    /// The dimensions.
    ghost dims: { Self → ℤ → ℤ → ℕ };

    /// The dimension at two degrees. The triangle says how many labels of circles have a degree; it
    /// is handed on, and kept by none, since it takes much of a stack.
    fn dimension(&self, triangle: &Triangle, i: i16, j: i16) -> u128
        ensures { result ≡ dims self.now i j };
}

/// The rows of all quantum degrees, for a diagram with so many crossings.
#[tactic(auto, using(crate::proofs::RowLemmas::all_steps))]
pub(crate) fn all_rows<D: Dimensions>(
    alloc: Global,
    dims: &D,
    triangle: &Triangle,
    crossings: u8,
) -> Result<Vec<ScanRow>, NoMemory>
    ensures { IfOk result (λ rows. rows.items ≡ all_rows_by (D.dims dims.now) crossings) }
{
    let mut rows = Vec::new(alloc);
    'places: for place in 0..COEFFICIENTS {
        push_rows(&mut rows, dims, triangle, crossings, exponent_at(place))?;
    }
    Ok(rows)
}

/// Adds the rows of a quantum degree, ascending by homological degree.
#[tactic(auto, using(crate::proofs::RowLemmas::steps))]
fn push_rows<D: Dimensions>(
    rows: &mut Vec<ScanRow>,
    dims: &D,
    triangle: &Triangle,
    crossings: u8,
    j: i16,
) -> Result<(), NoMemory>
    ensures { OnOk result (rows.new.items
        ≡ rows.old.items ++ rows_by (D.dims dims.now) crossings j) }
{
    'degrees: for k in 0..2 * usize::from(crossings) + 1 {
        push_row(rows, row_of(dims, triangle, crossings, k, j))?;
    }
    Ok(())
}

/// Adds a row to those of a table, where its dimension is above 0: a table shows no others.
fn push_row(rows: &mut Vec<ScanRow>, row: ScanRow) -> Result<(), NoMemory>
    ensures { OnOk result (rows.new.items ≡ rows.old.items ++ filter is_shown (row ∷ [])) }
{
    if row.dim > 0 {
        rows.push(row)?;
    }
    Ok(())
}

/// The row of a homological degree, counted from the least that a diagram of so many crossings has.
fn row_of<D: Dimensions>(dims: &D, triangle: &Triangle, crossings: u8, k: usize, j: i16) -> ScanRow
    requires { k < 2 * crossings + 1 }
    ensures { result ≡ row_by (D.dims dims.now) j (pos k -ℤ pos crossings) }
{
    let i = k as i16 - i16::from(crossings);
    ScanRow {
        j,
        i,
        dim: dims.dimension(triangle, i, j),
    }
}
