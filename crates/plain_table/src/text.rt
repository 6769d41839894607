//! The text of a homology table.

ghost use Rattle.std.specs.Prelude.{◌≡◌, ◌++◌, string_bytes, IfOk, OnOk};
ghost use Rattle.kh_types.specs.Table.{row_text, table_text, table};

use crate::cube::Cube;
use crate::table::{Row, rows};
use kh_types::{Diagram, EXPONENT, NoMemory};
use prime_field::PrimeField;
use std::alloc::Global;

/// The text of the homology table of a diagram over a field.
pub fn table_text_of<F: PrimeField>(alloc: Global, diagram: &Diagram) -> Result<String, NoMemory>
    ensures { IfOk result (λ text. string_bytes text ≡ table_text (table F.P diagram.now)) }
{
    let cube = Cube::new(alloc, diagram)?;
    let rows = rows::<F>(alloc, &cube, EXPONENT)?;
    table_text::<F>(alloc, &rows)
}

/// The text of a table: the line of its version, that of its field, then the lines of its rows.
fn table_text<F: PrimeField>(alloc: Global, rows: &[Row]) -> Result<String, NoMemory>
    ensures { IfOk result (λ text.
        string_bytes text ≡ table_text (record { field = F.P; rows = rows.now })) }
{
    let mut text = format!(in alloc; "table 2\nfield {}\n", F::P)?;
    'rows: for row in rows {
        push_row(alloc, &mut text, *row)?;
    }
    Ok(text)
}

/// Adds the line of a row.
fn push_row(alloc: Global, text: &mut String, row: Row) -> Result<(), NoMemory>
    ensures { OnOk result (string_bytes text.new ≡ string_bytes text.old ++ row_text row) }
{
    let line = row_text(alloc, row)?;
    text.push_str(line.as_str())?;
    Ok(())
}

/// The line of a row.
fn row_text(alloc: Global, row: Row) -> Result<String, NoMemory>
    ensures { IfOk result (λ text. string_bytes text ≡ row_text row) }
{
    let (j, i, dim) = (row.j, row.i, row.dim);
    Ok(format!(in alloc; "j {j} i {i} dim {dim}\n")?)
}
