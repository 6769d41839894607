//! The replay of a log's blocks.

ghost use Rattle.std.specs.Prelude.{◌≡◌, ◌≢◌, ◌≤◌, Err, IfErr, IfOk, OnOk};
ghost use Rattle.std.specs.List.{flat_map};
ghost use Rattle.circle_smoothing.specs.GeneratorCounts.{generator_count};
ghost use Rattle.circle_smoothing.specs.declared.limits.TheConstants.{GENERATORS};
ghost use Rattle.cube_signs.specs.Blocks.{block_degrees};
ghost use Rattle.kh_types.specs.Table.{rows_at};
ghost use Rattle.cancel_log.specs.LinesLeft.{AreFew};
ghost use Rattle.cancel_log.specs.Standings.{HasProved, is_close};
ghost use Rattle.cancel_log.specs.Verdicts.{IsVerdictBehind};

use crate::lines::Lines;
use crate::saying::said_by;
use crate::walk::{Walk, take_line};
use crate::{LogCause, LogLine, LogStop};
use cube_signs::Cube;
use homology_tables::Row;
use kh_types::Diagram;
use prime_field::PrimeField;
use std::alloc::Global;

/// Takes the lines of all blocks and the one that closes them, and gives the rows of the table.
pub(crate) fn replayed_rows<F: PrimeField>(
    alloc: Global,
    diagram: &Diagram,
    lines: &mut Lines<'_>,
) -> Result<Vec<Row>, LogStop>
    requires size { generator_count diagram.now ≤ GENERATORS }
    requires fourth { lines.old.number ≡ 4 }
    requires few { AreFew lines.old }
    ensures rows { IfOk result (λ rows.
        rows.items ≡ flat_map (rows_at F.P diagram.now) (block_degrees diagram.now)) }
    ensures proved { OnOk result (HasProved F.P diagram.now lines.old.rest lines.new) }
    ensures few { OnOk result (AreFew lines.new) }
    ensures fails { IfErr result (λ stop. stop ≢ LogStop.NoMemory
        → IsVerdictBehind F.P diagram.now lines.old.rest (Err stop)) }
{
    let cube = Cube::new(alloc, diagram)?;
    let cube = &cube;
    let degrees = cube.block_degrees(alloc)?;
    let mut walk = Walk::<F>::first(alloc);
    let mut scratch = Vec::new(alloc);
    'lines: while let Some(line) = lines.next() {
        let said = said_by(line);
        let closes = is_close(&said);
        if let Some(cause) = take_line(&mut scratch, cube, &degrees, &mut walk, said)? {
            let line = lines.number() as u32 - 1;
            return Err(LogStop::Line { line, cause });
        }
        if closes {
            return Ok(walk.into_rows());
        }
    }
    Err(LogStop::Line {
        line: lines.number() as u32,
        cause: LogCause::Text,
    })
}

/// Whether a line closes the blocks.
fn is_close(line: &LogLine) -> bool
    ensures { result ≡ is_close line.now }
{
    match line {
        LogLine::Close => true,
        LogLine::Cancel { .. } | LogLine::Begin { .. } | LogLine::Other => false,
    }
}
