//! Prints the first lines of the text of a table, and the lines of its rows.

ghost use Rattle.std.specs.Prelude.{◌≡◌, [], ◌++◌, string_bytes, IfOk, OnErr, OnOk};
ghost use Rattle.kh_types.specs.Table.{row_text, table_text};

use kh_types::NoMemory;
use std::alloc::Global;

/// The text of a table without rows, behind which `push_line` puts the lines of rows.
pub fn head_text(alloc: Global, field: u8) -> Result<String, NoMemory>
    ensures { IfOk result (λ text.
        string_bytes text ≡ table_text (record { field = field; rows = [] })) }
{
    Ok(format!(in alloc; "table 2\nfield {field}\n")?)
}

/// Adds the line of a row to a text, which stays as it was where memory runs out.
pub fn push_line(
    alloc: Global,
    text: &mut String,
    j: i16,
    i: i16,
    dim: u128,
) -> Result<(), NoMemory>
    ensures added { OnOk result (string_bytes text.new
        ≡ string_bytes text.old ++ row_text (record { j = j; i = i; dim = dim })) }
    ensures unchanged { OnErr result (string_bytes text.new ≡ string_bytes text.old) }
{
    let line = line_text(alloc, j, i, dim)?;
    text.push_str(line.as_str())?;
    Ok(())
}

/// The line of a row with these numbers.
pub fn line_text(alloc: Global, j: i16, i: i16, dim: u128) -> Result<String, NoMemory>
    ensures { IfOk result (λ text.
        string_bytes text ≡ row_text (record { j = j; i = i; dim = dim })) }
{
    Ok(format!(in alloc; "j {j} i {i} dim {dim}\n")?)
}
