//! The command `homology`: the table of homology dimensions, and the Jones polynomial.

ghost use Rattle.std.specs.Prelude.{◌≡◌, ◌++◌, IfOk};
ghost use Rattle.kh_types.specs.Table.{table_text};
ghost use Rattle.word_line.specs.Values.{AreWorkers};
ghost use Rattle.kh_work.specs.Homology.{homology_reply};
ghost use Rattle.kh_work.specs.TableMakers.{IsTableMaker};
ghost use Rattle.kh_runs.specs.Homology.{jones_line};

use crate::tables::table_from;
use circle_smoothing::CountedDiagram;
use cube_signs::SmallDiagram;
use homology_tables::Table;
use kh_replies::{jones_line, too_many_generators};
use kh_runs::{Reply, Status, reply_made};
use kh_types::{Diagram, NoMemory};
use prime_field::FieldSize;
use std::alloc::Global;
use table_text::print_table;

/// The reply to a diagram, whose homology table the maker makes, where there are several workers, if
/// it has few enough generators. Source: Bar-Natan 2002, section 3; the text is this project's rule.
#[tactic(auto, unfolding(kh_runs::specs::Homology::homology_text))]
pub fn reply_to_homology<M: Fn(FieldSize, u32, &SmallDiagram) -> Result<Table, NoMemory>>(
    alloc: Global,
    field: FieldSize,
    workers: u32,
    diagram: &Diagram,
    maker: &M,
) -> Result<Reply, NoMemory>
    requires maker { IsTableMaker M.Fn maker.now }
    requires workers { AreWorkers workers }
    ensures { IfOk result (λ reply. reply ≡ homology_reply field diagram.now) }
{
    match SmallDiagram::try_new(CountedDiagram::of_diagram(diagram)) {
        Ok(small) => {
            let table = table_from(alloc, maker, field, workers, &small)?;
            let text = text_with_table(alloc, small.counted(), &table)?;
            Ok(reply_made(Status::Done, text))
        }
        Err(limit) => too_many_generators(alloc, limit.generators),
    }
}

/// The text of a table of a diagram, and the Jones line behind it, which is read from the counts of
/// the diagram's states.
pub fn text_with_table(
    alloc: Global,
    counted: &CountedDiagram,
    table: &Table,
) -> Result<Vec<u8>, NoMemory>
    ensures { IfOk result (λ text. text.items ≡ table_text table.now ++ jones_line counted.now) }
{
    let mut text = print_table(alloc, table)?;
    text.extend_from_slice(&jones_line(alloc, counted)?)?;
    Ok(text)
}
