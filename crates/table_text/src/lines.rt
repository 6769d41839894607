//! The lines of a table's text.

ghost use Rattle.std.specs.Prelude.{◌≡◌, ◌≤◌, pos, ◌↔◌, IsTrue, IfOk, IfSome, Some, length, drop};
ghost use Rattle.std.specs.List.{All, AllPairs, position};
ghost use Rattle.kh_types.specs.Table.{Row, row_text};
ghost use Rattle.homology_tables.specs.Tables.{IsBefore};
ghost use Rattle.table_text.specs.Lines.{first_line};
ghost use Rattle.kh_lex.specs.Lines.{is_line_feed};
ghost use Rattle.table_text.specs.Versions.{IsRowIn};
ghost use Rattle.table_text.specs.Words.{IsFieldIn, IsNextRow};

use crate::printer::row_text;
use crate::version::Version;
use crate::words::{behind_word, number, word};
use circle_smoothing::GENERATORS;
use homology_tables::Row;
use kh_types::NoMemory;
use std::alloc::Global;

/// The line that begins at a place: the bytes through the next line feed, or all that are left.
pub fn line_at(text: &[u8], place: usize) -> &[u8]
    requires { place ≤ length text.now }
    ensures { result.now ≡ first_line (drop place text.now) }
{
    first_line(&text[place..])
}

/// The field of a table whose first line is given, if it can be that.
#[tactic(auto, using(crate::proofs::LineTexts::fields))]
pub fn field_in(line: &[u8]) -> Option<u8>
    ensures { IsFieldIn line.now result }
{
    if line == b"field 2\n".as_slice() {
        Some(2)
    } else if line == b"field 3\n".as_slice() {
        Some(3)
    } else if line == b"field 5\n".as_slice() {
        Some(5)
    } else if line == b"field 7\n".as_slice() {
        Some(7)
    } else {
        None
    }
}

/// The row whose line is given, if it is that of a row that can follow the rows before it.
pub fn next_row(
    alloc: Global,
    version: Version,
    rows: &[Row],
    line: &[u8],
) -> Result<Option<Row>, NoMemory>
    requires { AllPairs IsBefore rows.now }
    ensures { IfOk result (λ found. IsNextRow version rows.now line.now found) }
{
    let Some(row) = row_in(version, line) else {
        return Ok(None);
    };
    let text = row_text(alloc, row)?;
    if text.as_bytes() == line && follows(rows, row) {
        Ok(Some(row))
    } else {
        Ok(None)
    }
}

/// The only row that a line can be that of.
fn row_in(version: Version, line: &[u8]) -> Option<Row>
    ensures within { IfSome result (λ row. IsRowIn version row) }
    ensures only { (row : Row) → IsRowIn version row → line.now ≡ row_text row
        → result ≡ Some row }
{
    let first = behind_word(line);
    let second = behind_word(behind_word(first));
    let third = behind_word(behind_word(second));
    row_within(
        version,
        number(word(first))?,
        number(word(second))?,
        number(word(third))?,
    )
}

/// The row of two degrees and a dimension, where they are within the limits of a version.
fn row_within(version: Version, j: i32, i: i32, dim: i32) -> Option<Row>
    ensures within { IfSome result (λ row. IsRowIn version row) }
    ensures only { (row : Row) → IsRowIn version row → j ≡ row.j → i ≡ row.i → dim ≡ pos row.dim
        → result ≡ Some row }
{
    let (far, wide, most) = (
        version.far() as i32,
        version.wide() as i32,
        GENERATORS as i32,
    );
    if -far <= j && j <= far && -wide <= i && i <= wide && 1 <= dim && dim <= most {
        Some(Row {
            j: j as i16,
            i: i as i16,
            dim: dim as u32,
        })
    } else {
        None
    }
}

/// Whether a row comes behind all rows that ascend.
fn follows(rows: &[Row], row: Row) -> bool
    requires { AllPairs IsBefore rows.now }
    ensures { IsTrue result ↔ All (λ earlier. IsBefore earlier row) rows.now }
{
    match rows.last() {
        Some(last) => last.is_before(row),
        None => true,
    }
}

/// The first line of a text.
#[tactic(auto, using(crate::proofs::LineLemmas::cuts))]
fn first_line(text: &[u8]) -> &[u8]
    ensures { result.now ≡ first_line text.now }
{
    match first_feed(text) {
        Some(feed) => &text[..feed + 1],
        None => text,
    }
}

/// The place of the first line feed.
fn first_feed(text: &[u8]) -> Option<usize>
    ensures { result ≡ position is_line_feed text.now }
{
    text.iter().position(|byte| *byte == b'\n')
}
