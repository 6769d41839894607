//! The graded Euler characteristic of a scanned table.

ghost use Rattle.std.specs.Prelude.{◌≡◌, ◌≤◌, ◌^◌, length};
ghost use Rattle.std.specs.List.{All};
ghost use Rattle.kh_types.specs.StateSum.{euler, signed_by};
ghost use Rattle.jones_sum.specs.Coefficients.{coefficients_of};
ghost use Rattle.scan_main.specs.SmallRows.{IsSmallRow};

use jones_sum::{COEFFICIENTS, Laurent, place_of};
use tangle_scan::{ScanRow, ScanTable};

/// The graded Euler characteristic of a table: the sum over its rows of (-1)^i dim q^j. As many
/// rows as these, of such dimensions, sum within 128 bits. Source: Bar-Natan 2002, section 3.
pub fn euler(table: &ScanTable) -> Laurent
    requires small { All IsSmallRow table.now.rows }
    requires few { length table.now.rows ≤ 2 ^ 16 }
    ensures { result ≡ coefficients_of (euler table.now) }
{
    let rows = table.rows();
    let mut coefficients = [0; COEFFICIENTS];
    'rows: for row in rows {
        coefficients[place_of(row.j)] += signed_dim(*row);
    }
    Laurent::of_coefficients(coefficients)
}

/// The dimension, with a minus sign where the homological degree is odd.
#[tactic(auto, using(crate::proofs::EulerLemmas::signs))]
fn signed_dim(row: ScanRow) -> i128
    requires { row.dim ≤ 2 ^ 68 }
    ensures { result ≡ signed_by row.i row.dim }
{
    let dim = row.dim as i128;
    if row.i.unsigned_abs() % 2 == 0 {
        dim
    } else {
        -dim
    }
}
