//! The command `reduced`: the table of reduced homology at a marked arc or loop, and the Jones
//! polynomial.

ghost use Rattle.std.specs.Prelude.{◌≡◌, ◌≤◌, ◌++◌, true, IfErr, IfOk, IsOk, string_bytes};
ghost use Rattle.circle_smoothing.specs.GeneratorCounts.{generator_count};
ghost use Rattle.circle_smoothing.specs.declared.limits.TheConstants.{GENERATORS};
ghost use Rattle.kh_types.specs.Table.{table_text};
ghost use Rattle.kh_runs.specs.Homology.{jones_line};
ghost use Rattle.kh_runs.specs.Replies.{reply_of};
ghost use Rattle.kh_runs.specs.declared.status.Status.{Status};
ghost use Rattle.kh_work.specs.Reduced.{mark_line, reduced_reply};
ghost use Rattle.reduced_cube.specs.Reduced.{is_mark, reduced_table};
ghost use Rattle.reduced_cube.specs.Stops.{IsReducedStop};

use crate::commands::text_with_table;
use circle_smoothing::CountedDiagram;
use homology_tables::Table;
use kh_replies::too_many_generators;
use kh_runs::{Reply, Status, refused_mark, reply_made};
use kh_types::{Diagram, NoMemory};
use prime_field::{FieldSize, over_field};
use reduced_cube::{ReducedStop, reduced_table};
use std::alloc::Global;

/// The reply to a diagram at a mark. Source: Khovanov 2003, section 3; the text is this project's
/// rule.
pub fn reply_to_reduced(
    alloc: Global,
    field: FieldSize,
    mark: u8,
    diagram: &Diagram,
) -> Result<Reply, NoMemory>
    ensures { IfOk result (λ reply. reply ≡ reduced_reply field mark diagram.now) }
{
    match reduced_table_over(alloc, field, mark, diagram) {
        Ok(table) => reply_with_mark(alloc, mark, diagram, &table),
        Err(ReducedStop::Mark { arc }) => refused_mark(alloc, arc),
        Err(ReducedStop::SizeLimit { generators }) => too_many_generators(alloc, generators),
        Err(ReducedStop::NoMemory) => Err(NoMemory),
    }
}

/// The reduced homology table over the field of so many elements.
fn reduced_table_over(
    alloc: Global,
    field: FieldSize,
    mark: u8,
    diagram: &Diagram,
) -> Result<Table, ReducedStop>
    ensures table { IfOk result (λ made. made ≡ reduced_table field diagram.now mark) }
    ensures mark { IsOk result → is_mark diagram.now mark ≡ true }
    ensures size { IsOk result → generator_count diagram.now ≤ GENERATORS }
    ensures stop { IfErr result (IsReducedStop diagram.now mark) }
{
    over_field!(field, reduced_table(alloc, diagram, mark))
}

/// The line of a mark, the text of a table, and the Jones line of a diagram.
fn reply_with_mark(
    alloc: Global,
    mark: u8,
    diagram: &Diagram,
    table: &Table,
) -> Result<Reply, NoMemory>
    ensures { IfOk result (λ reply. reply ≡ reply_of Status.Done
        (mark_line mark ++ (table_text table.now ++ jones_line diagram.now))) }
{
    let counted = CountedDiagram::of_diagram(diagram);
    let mut text = mark_line(alloc, mark)?.into_bytes();
    text.extend_from_slice(&text_with_table(alloc, &counted, table)?)?;
    Ok(reply_made(Status::Done, text))
}

/// The line of a mark.
fn mark_line(alloc: Global, mark: u8) -> Result<String, NoMemory>
    ensures { IfOk result (λ line. string_bytes line ≡ mark_line mark) }
{
    Ok(format!(in alloc; "mark {mark}\n")?)
}
