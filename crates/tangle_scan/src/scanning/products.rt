//! The rows of the product of two tables: the sums of products, added up in a grid of numbers.

ghost use Rattle.std.specs.Prelude.{◌≡◌, ℤ, ◌+◌, ◌*◌, ◌<◌, ◌^◌, vec_len, IfOk, true};
ghost use Rattle.kh_types.specs.declared.limits.TheConstants.{EXPONENT};
ghost use Rattle.union_laws.specs.UnitedRows.{rows_product};
ghost use Rattle.tangle_scan.specs.CountedRows.{all_rows_by};

use crate::finished::table::{Dimensions, ScanRow, all_rows};
use circle_smoothing::Triangle;
use jones_sum::COEFFICIENTS;
use kh_types::{EXPONENT, NoMemory};
use std::alloc::Global;

/// The rows of the product of two tables, for a diagram with so many crossings: at any two degrees
/// the sum of the products of the dimensions of a row of either, over all pairs of rows whose
/// degrees add up to them.
pub(crate) fn product_rows(
    alloc: Global,
    crossings: u8,
    first: &[ScanRow],
    second: &[ScanRow],
) -> Result<Vec<ScanRow>, NoMemory>
    requires { (i j : ℤ) → rows_product first.now second.now i j < 2 ^ 128 }
    ensures { IfOk result (λ rows.
        rows.items ≡ all_rows_by (rows_product first.now second.now) crossings) }
{
    let mut grid = Grid::new(alloc, crossings)?;
    grid.add_products(first, second);
    all_rows(alloc, &grid, &Triangle::new(), crossings)
}

/// A number at each homological degree from -n to n, for n crossings, and each quantum degree from
/// -EXPONENT to EXPONENT, ascending by quantum degree, then by homological degree. At others it is
/// 0.
#[derive(Drop)]
struct Grid {
    crossings: u8,
    numbers: Vec<u128>,
    ghost full: { vec_len numbers ≡ (2 * EXPONENT + 1) * (2 * crossings + 1) },
}

impl Grid {
    ghost use Rattle.tangle_scan.specs.Grids.{AreRaised, HasRoom, dims_in, is_in, number_at, pair_dims, place_in, row_dims};

    /// The grid of zeros, for so many crossings.
    fn new(alloc: Global, crossings: u8) -> Result<Grid, NoMemory>
        ensures crossings { IfOk result (λ grid. grid.crossings ≡ crossings) }
        ensures zero { IfOk result (λ grid. (i j : ℤ) → dims_in grid i j ≡ 0) }
    {
        let size = COEFFICIENTS * (2 * usize::from(crossings) + 1);
        let numbers = vec![in alloc; 0u128; size]?;
        Ok(Grid { crossings, numbers })
    }

    /// Adds the product of each row of the first table with each of the second.
    fn add_products(&mut self, first: &[ScanRow], second: &[ScanRow])
        requires { HasRoom (rows_product first.now second.now) self.old }
        ensures { AreRaised (rows_product first.now second.now) self.old self.new }
    {
        'rows: for row in first {
            self.add_row(*row, second);
        }
    }

    /// Adds the product of a row with each of a table.
    fn add_row(&mut self, row: ScanRow, others: &[ScanRow])
        requires { HasRoom (row_dims row others.now) self.old }
        ensures { AreRaised (row_dims row others.now) self.old self.new }
    {
        'others: for other in others {
            self.add_pair(row, *other);
        }
    }

    /// Adds the product of two rows, at the sums of their degrees.
    fn add_pair(&mut self, row: ScanRow, other: ScanRow)
        requires { HasRoom (pair_dims row other) self.old }
        ensures { AreRaised (pair_dims row other) self.old self.new }
    {
        self.add(
            i32::from(row.i) + i32::from(other.i),
            i32::from(row.j) + i32::from(other.j),
            row.dim * other.dim,
        );
    }

    /// Adds a number at two degrees, where the grid has these.
    fn add(&mut self, i: i32, j: i32, number: u128)
        requires { dims_in self.old i j + number < 2 ^ 128 }
        ensures { AreRaised (number_at i j number) self.old self.new }
    {
        if Grid::is_in(self.crossings, i, j) {
            let place = Grid::place_in(self.crossings, i, j);
            self.numbers[place] += number;
        }
    }

    /// Whether the grid for so many crossings has two degrees.
    fn is_in(crossings: u8, i: i32, j: i32) -> bool
        ensures { result ≡ is_in crossings i j }
    {
        i.unsigned_abs() <= u32::from(crossings) && j.unsigned_abs() <= EXPONENT as u32
    }

    /// The place of two degrees that it has.
    fn place_in(crossings: u8, i: i32, j: i32) -> usize
        requires { is_in crossings i j ≡ true }
        ensures place { result ≡ place_in crossings i j }
        ensures within { result < (2 * EXPONENT + 1) * (2 * crossings + 1) }
    {
        let row = (j + EXPONENT as i32) as usize;
        let column = (i + i32::from(crossings)) as usize;
        row * (2 * usize::from(crossings) + 1) + column
    }
}

impl Dimensions for Grid {
    ghost use Rattle.tangle_scan.specs.Grids.{dims_in};

    ghost dims = { dims_in };

    fn dimension(&self, _triangle: &Triangle, i: i16, j: i16) -> u128 {
        let (i, j) = (i32::from(i), i32::from(j));
        if Grid::is_in(self.crossings, i, j) {
            self.numbers[Grid::place_in(self.crossings, i, j)]
        } else {
            0
        }
    }
}
