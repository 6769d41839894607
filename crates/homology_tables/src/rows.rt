//! The rows of one quantum degree, from a complex that is cancelled to zero.

ghost use Rattle.std.specs.Prelude.{◌≡◌, ◌+◌, ◌*◌, ◌<◌, ◌≤◌, ◌++◌, pos, ◌-ℤ◌, List, OnOk};
ghost use Rattle.kh_types.specs.Complex.{alive_count};
ghost use Rattle.kh_types.specs.Table.{Row as RowFacts};
ghost use Rattle.kh_types.specs.declared.limits.TheConstants.{CROSSINGS};
ghost use Rattle.homology_tables.specs.DegreeRows.{AddsAllOrNone, row_with, rows_with};

use crate::row::{Row, push_row};
use kh_types::NoMemory;
use prime_field::PrimeField;
use sparse_block::Complex;

/// Adds the rows of a quantum degree, where the places alive of a complex are the dimensions, with
/// the homological degrees from -reach to reach. What memory it takes is that in which `rows` grow;
/// where it runs out they are as before.
pub fn push_rows<F: PrimeField>(
    rows: &mut Vec<Row>,
    complex: &Complex<F>,
    j: i16,
    reach: usize,
) -> Result<(), NoMemory>
    requires { reach ≤ CROSSINGS }
    ensures { AddsAllOrNone result rows.old.items rows.new.items
        (rows_with reach j (alive_count complex.now.complex)) }
{
    let before = rows.len();
    let added = push_each(rows, complex, j, reach);
    if added.is_err() {
        rows.truncate(before);
    }
    added
}

/// Adds the rows one by one; where memory runs out those that were added stay.
#[tactic(auto, using(crate::proofs::DegreeRows::steps))]
fn push_each<F: PrimeField>(
    rows: &mut Vec<Row>,
    complex: &Complex<F>,
    j: i16,
    reach: usize,
) -> Result<(), NoMemory>
    requires { reach ≤ CROSSINGS }
    ensures all { OnOk result (rows.new.items
        ≡ rows.old.items ++ rows_with reach j (alive_count complex.now.complex)) }
    ensures some { (more : List RowFacts) × (rows.new.items ≡ rows.old.items ++ more) }
{
    'degrees: for k in 0..2 * reach + 1 {
        push_row(rows, row_of(complex, j, reach, k))?;
    }
    Ok(())
}

/// The row of a homological degree, counted from the least.
#[tactic(auto, using(crate::proofs::DegreeRows::rows))]
fn row_of<F: PrimeField>(complex: &Complex<F>, j: i16, reach: usize, k: usize) -> Row
    requires reach { reach ≤ CROSSINGS }
    requires degree { k < 2 * reach + 1 }
    ensures { result ≡ row_with j (alive_count complex.now.complex) (pos k -ℤ pos reach) }
{
    let i = k as i16 - reach as i16;
    Row {
        j,
        i,
        dim: complex.alive(i),
    }
}
