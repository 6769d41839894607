//! Reads homology tables.

ghost use Rattle.std.specs.Prelude.{◌≡◌, ◌≢◌, ◌≤◌, ◌↔◌, Err, IsTrue, drop, length};
ghost use Rattle.table_text.specs.Lines.{first_line};
ghost use Rattle.table_text.specs.Reading.{IsTableReading};
ghost use Rattle.table_text.specs.Versions.{version_line};
ghost use Rattle.table_text.specs.Words.{IsReadingIn};
ghost use Rattle.table_text.specs.declared.limits.TheConstants.{TABLE_BYTES};

use crate::limits::TABLE_BYTES;
use crate::lines::{field_in, line_at, next_row};
use crate::stop::TableStop;
use crate::version::Version;
use homology_tables::Table;
use std::alloc::Global;

/// Reads the text of a table, of version 1 or 2: exactly the texts of tables are read, and another
/// text is refused at its first wrong line.
pub fn read_table(alloc: Global, text: &[u8]) -> Result<Table, TableStop>
    requires { length text.now ≤ TABLE_BYTES }
    ensures { result ≢ Err TableStop.NoMemory → IsTableReading text.now result }
{
    if !is_second(text) {
        return read_lines(alloc, Version::First, text);
    }
    match read_lines(alloc, Version::Second, behind_version(text)) {
        Ok(table) => Ok(table),
        Err(TableStop::Text { place }) => Err(TableStop::Text { place: 8 + place }),
        Err(TableStop::NoMemory) => Err(TableStop::NoMemory),
    }
}

/// Whether a text begins with the line of version 2.
#[tactic(auto, using(crate::proofs::VersionTexts::tests))]
fn is_second(text: &[u8]) -> bool
    ensures { IsTrue result ↔ (first_line text.now ≡ version_line) }
{
    line_at(text, 0) == b"table 2\n".as_slice()
}

/// A text without the line of version 2.
fn behind_version(text: &[u8]) -> &[u8]
    ensures { result.now ≡ drop 8 text.now }
{
    text.get(8..).unwrap_or(&[])
}

/// Reads the lines of a table in a version; places are those in the lines.
fn read_lines(alloc: Global, version: Version, text: &[u8]) -> Result<Table, TableStop>
    requires { length text.now ≤ TABLE_BYTES }
    ensures { result ≢ Err TableStop.NoMemory → IsReadingIn version text.now result }
{
    let first = line_at(text, 0);
    let Some(field) = field_in(first) else {
        return Err(TableStop::Text { place: 0 });
    };
    let mut place = first.len();
    let mut rows = Vec::new(alloc);
    'lines: while place < text.len() {
        let line = line_at(text, place);
        let Some(row) = next_row(alloc, version, &rows, line)? else {
            return Err(TableStop::Text {
                place: place as u32,
            });
        };
        rows.push(row)?;
        place += line.len();
    }
    Ok(Table::of_rows(field, rows))
}
