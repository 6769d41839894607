//! The reply to a diagram: its homology table, which a scan makes, and the Jones line.

ghost use Rattle.std.specs.Prelude.{◌≡◌, ◌++◌, IfOk};
ghost use Rattle.kh_types.specs.Table.{table, table_text};
ghost use Rattle.line_answers.specs.Scans.{IsTableReply};

use crate::jones::jones_line_with;
use kh_runs::{Reply, Status, reply_made};
use kh_types::{Diagram, NoMemory};
use prime_field::{FieldSize, over_field};
use std::alloc::Global;
use table_lines::{head_text, push_line};
use tangle_scan::{ScanTable, scan_table};

/// The reply to a diagram: its homology table over a field, and the Jones line. Source: Bar-Natan
/// 2002, sections 2 and 3; the text is this project's rule.
#[tactic(auto, unfolding(kh_runs::specs::Homology::homology_text))]
pub fn reply_to_diagram(
    alloc: Global,
    field: FieldSize,
    diagram: &Diagram,
) -> Result<Reply, NoMemory>
    ensures { IfOk result (IsTableReply field diagram.now) }
{
    let table = table_over(alloc, field, diagram)?;
    let mut text = text_of(alloc, &table)?;
    text.extend_from_slice(&jones_line_with(alloc, field, diagram, &table)?)?;
    Ok(reply_made(Status::Done, text))
}

/// The homology table of a diagram over the field of so many elements.
fn table_over(alloc: Global, field: FieldSize, diagram: &Diagram) -> Result<ScanTable, NoMemory>
    ensures { IfOk result (λ made. made ≡ table field diagram.now) }
{
    over_field!(field, scan_table(alloc, diagram))
}

/// The text of a table.
fn text_of(alloc: Global, table: &ScanTable) -> Result<Vec<u8>, NoMemory>
    ensures { IfOk result (λ text. text.items ≡ table_text table.now) }
{
    let rows = table.rows();
    let mut text = head_text(alloc, table.field())?;
    'rows: for row in rows {
        push_line(alloc, &mut text, row.j, row.i, row.dim)?;
    }
    Ok(text.into_bytes())
}
