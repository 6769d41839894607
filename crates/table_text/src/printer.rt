//! Prints homology tables.

ghost use Rattle.std.specs.Prelude.{◌≡◌, string_bytes, IfOk};
ghost use Rattle.kh_types.specs.Table.{row_text, table_text};

use homology_tables::{Row, Table};
use kh_types::NoMemory;
use std::alloc::Global;
use table_lines::{head_text, line_text, push_line};

/// The text of a table: the line `table 2`, the line `field P`, then for each row, ascending by j,
/// then by i, the line `j J i I dim D`.
pub fn print_table(alloc: Global, table: &Table) -> Result<Vec<u8>, NoMemory>
    ensures { IfOk result (λ text. text.items ≡ table_text table.now) }
{
    let rows = table.rows();
    let mut text = head_text(alloc, table.field())?;
    'rows: for row in rows {
        push_line(alloc, &mut text, row.j, row.i, u128::from(row.dim))?;
    }
    Ok(text.into_bytes())
}

/// The line of a row.
pub fn row_text(alloc: Global, row: Row) -> Result<String, NoMemory>
    ensures { IfOk result (λ text. string_bytes text ≡ row_text row) }
{
    line_text(alloc, row.j, row.i, u128::from(row.dim))
}
