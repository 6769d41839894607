//! Tables beside circles: a circle that meets no crossing multiplies a table by q + 1/q.

ghost use Rattle.std.specs.Prelude.{◌≡◌, ◌+◌, ◌*◌, ◌<◌, ◌≤◌, ◌++◌, ℤ, pos, neg_ℤ, ◌≤ℤ◌, ◌-ℤ◌, IfOk, OnOk};
ghost use Rattle.std.specs.List.{All, find};
ghost use Rattle.std.specs.Ordering.{int_eq};
ghost use Rattle.circle_smoothing.specs.GeneratorCounts.{generator_count};
ghost use Rattle.circle_smoothing.specs.declared.limits.TheConstants.{GENERATORS};
ghost use Rattle.homology_tables.specs.DegreeRows.{row_with, rows_with};
ghost use Rattle.homology_tables.specs.Tables.{IsRow, IsTable};
ghost use Rattle.kh_types.specs.CircleNumbers.{IsName};
ghost use Rattle.kh_types.specs.Table.{table};
ghost use Rattle.kh_types.specs.declared.limits.TheConstants.{CROSSINGS, EXPONENT};
ghost use Rattle.kh_work.specs.Circles.{beside_circle, dim_of, dims_beside, dims_of, rows_of};
ghost use Rattle.reduced_cube.specs.Reduced.{reduced_table};
ghost use Rattle.union_laws.specs.Loops.{with_loops};

use homology_tables::{Row, Table, push_row, table_laws};
use kh_types::laws::diagrams::diagram_laws;
use kh_types::{Diagram, EXPONENT, NoMemory};
use prime_field::PrimeField;
use prime_field::laws::element_laws;
use std::alloc::Global;

/// The table of a diagram, from that of its crossings alone: each loop is a circle. Source:
/// Khovanov 2000.
pub(crate) fn beside_loops<F: PrimeField>(
    alloc: Global,
    bare: Table,
    diagram: &Diagram,
) -> Result<Table, NoMemory>
    requires size { generator_count diagram.now ≤ GENERATORS }
    requires bare { bare ≡ table F.P (with_loops diagram.now 0) }
    ensures { IfOk result (λ made. made ≡ table F.P diagram.now) }
{
    element_laws::<F>();
    diagram_laws(diagram);
    let mut made = bare;
    'loops: for _ in 0..diagram.loops() {
        made = beside_circle(alloc, &made, diagram.count())?;
    }
    Ok(made)
}

/// The table of a diagram over two elements, from its reduced table at the first arc. Source:
/// Shumakovitch, "Torsion of Khovanov homology", 2004.
pub(crate) fn of_reduced<F: PrimeField>(
    alloc: Global,
    reduced: &Table,
    diagram: &Diagram,
) -> Result<Table, NoMemory>
    requires two { F.P ≡ 2 }
    requires mark { IsName diagram.now 1 }
    requires size { generator_count diagram.now ≤ GENERATORS }
    requires reduced { reduced.now ≡ reduced_table F.P diagram.now 1 }
    ensures { IfOk result (λ made. made ≡ table F.P diagram.now) }
{
    element_laws::<F>();
    diagram_laws(diagram);
    let made = beside_circle(alloc, reduced, diagram.count())?;
    Ok(made)
}

/// A table beside a circle, with the homological degrees from -reach to reach.
fn beside_circle(alloc: Global, homology: &Table, reach: u8) -> Result<Table, NoMemory>
    requires reach { reach ≤ CROSSINGS }
    requires table { IsTable (beside_circle reach homology.now) }
    ensures { IfOk result (λ made. made ≡ beside_circle reach homology.now) }
{
    let mut rows = Vec::new(alloc);
    'degrees: for place in 0..2 * EXPONENT + 1 {
        push_degree(
            alloc,
            &mut rows,
            homology,
            place as i16 - EXPONENT as i16,
            reach,
        )?;
    }
    Ok(Table::of_rows(homology.field(), rows))
}

/// Adds the rows of a quantum degree of the table beside a circle.
#[tactic(auto, using(crate::proofs::CircleRows::degree_rows))]
fn push_degree(
    alloc: Global,
    rows: &mut Vec<Row>,
    homology: &Table,
    j: i16,
    reach: u8,
) -> Result<(), NoMemory>
    requires reach { reach ≤ CROSSINGS }
    requires low { neg_ℤ (pos EXPONENT) ≤ℤ j }
    requires high { j ≤ℤ pos EXPONENT }
    ensures { OnOk result (rows.new.items
        ≡ rows.old.items ++ rows_with reach j (dims_beside homology.now j)) }
{
    table_laws(homology);
    let lower = rows_of(alloc, homology.rows(), j - 1)?;
    let upper = rows_of(alloc, homology.rows(), j + 1)?;
    push_sums(rows, &lower, &upper, j, reach)
}

/// The rows of a quantum degree.
fn rows_of(alloc: Global, rows: &[Row], j: i16) -> Result<Vec<Row>, NoMemory>
    ensures { IfOk result (λ made. made.items ≡ rows_of rows.now j) }
{
    Ok(
        rows.iter()
            .copied()
            .filter(|row| row.j == j)
            .collect(alloc)?,
    )
}

/// Adds the rows of a quantum degree whose dimensions are the sums of those at two others.
#[tactic(auto, using(homology_tables::proofs::DegreeRows::steps))]
fn push_sums(
    rows: &mut Vec<Row>,
    lower: &[Row],
    upper: &[Row],
    j: i16,
    reach: u8,
) -> Result<(), NoMemory>
    requires reach { reach ≤ CROSSINGS }
    requires lower { All IsRow lower.now }
    requires upper { All IsRow upper.now }
    ensures { OnOk result (rows.new.items
        ≡ rows.old.items ++ rows_with reach j (dims_of lower.now upper.now)) }
{
    'degrees: for k in 0..2 * reach + 1 {
        push_row(rows, row_of(lower, upper, j, reach, k))?;
    }
    Ok(())
}

/// The row of a homological degree, counted from the least, with the sum of two dimensions.
#[tactic(auto, using(homology_tables::proofs::DegreeRows::rows, crate::proofs::CircleRows::few_rows))]
fn row_of(lower: &[Row], upper: &[Row], j: i16, reach: u8, k: u8) -> Row
    requires reach { reach ≤ CROSSINGS }
    requires degree { k < 2 * reach + 1 }
    requires lower { All IsRow lower.now }
    requires upper { All IsRow upper.now }
    ensures { result ≡ row_with j (dims_of lower.now upper.now) (pos k -ℤ pos reach) }
{
    let i = i16::from(k) - i16::from(reach);
    Row {
        j,
        i,
        dim: dim_of(lower, i) + dim_of(upper, i),
    }
}

/// The dimension that rows of one quantum degree have at a homological degree.
fn dim_of(rows: &[Row], i: i16) -> u32
    ensures { result ≡ dim_of rows.now i }
{
    match row_at(rows, i) {
        Some(row) => row.dim,
        None => 0,
    }
}

/// The row of a homological degree, if there is one.
fn row_at(rows: &[Row], i: i16) -> Option<Row>
    ensures { result ≡ find (λ row. int_eq row.i i) rows.now }
{
    rows.iter().copied().find(|row| row.i == i)
}
