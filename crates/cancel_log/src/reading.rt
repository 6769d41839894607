//! Verifies a log.

ghost use Rattle.std.specs.Prelude.{◌≡◌, ◌≢◌, ◌≤◌, ℕ, Err, IfOk, length};
ghost use Rattle.kh_types.specs.Code.{Code};
ghost use Rattle.kh_types.specs.Table.{table};
ghost use Rattle.cancel_log.specs.LinesLeft.{AreFew};
ghost use Rattle.cancel_log.specs.Verdicts.{IsLog, IsVerdict, IsVerdictBehind};
ghost use Rattle.cancel_log.specs.declared.limits.TheConstants.{LOG_BYTES};

use crate::difference::first_difference;
use crate::lines::Lines;
use crate::replay::replayed_rows;
use crate::start::take_start;
use crate::{LogCause, LogStop};
use cube_signs::check_size;
use homology_tables::Table;
use kh_types::Diagram;
use prime_field::{FieldSize, PrimeField, over_field};
use shared_block::whole_table;
use std::alloc::Global;
use table_text::print_table;

/// The table that a log proves, or the first line that fails and why. Whoever wrote the log is not
/// trusted: each pivot is tested in the block that those before it leave.
#[tactic(auto, using(crate::proofs::WholeLogs::verdicts))]
pub fn verify_log(alloc: Global, text: &[u8]) -> Result<Table, LogStop>
    requires { length text.now ≤ LOG_BYTES }
    ensures verdict { result ≢ Err LogStop.NoMemory → IsVerdict text.now result }
    ensures table { IfOk result (λ homology. (p : ℕ) × (code : Code)
        × IsLog p code text.now × (homology ≡ table p code)) }
{
    let mut lines = Lines::of(text);
    let start = take_start(alloc, &mut lines)?;
    table_behind(alloc, start.field, &start.diagram, &mut lines)
}

/// What the lines from the fourth on come to, over the field of so many elements.
fn table_behind(
    alloc: Global,
    field: FieldSize,
    diagram: &Diagram,
    lines: &mut Lines<'_>,
) -> Result<Table, LogStop>
    requires fourth { lines.old.number ≡ 4 }
    requires few { AreFew lines.old }
    ensures { result ≢ Err LogStop.NoMemory
        → IsVerdictBehind field diagram.now lines.old.rest result }
{
    over_field!(field, table_over(alloc, diagram, lines))
}

/// What the lines from the fourth on come to, over a field.
#[tactic(auto, using(crate::proofs::WholeLogs::behinds))]
fn table_over<F: PrimeField>(
    alloc: Global,
    diagram: &Diagram,
    lines: &mut Lines<'_>,
) -> Result<Table, LogStop>
    requires fourth { lines.old.number ≡ 4 }
    requires few { AreFew lines.old }
    ensures { result ≢ Err LogStop.NoMemory
        → IsVerdictBehind F.P diagram.now lines.old.rest result }
{
    check_size(diagram)?;
    let rows = replayed_rows::<F>(alloc, diagram, lines)?;
    let homology = whole_table::<F>(diagram, rows);
    let text = print_table(alloc, &homology)?;
    let mut wanted = Lines::of(&text);
    // (the line that closed the blocks)
    wanted.next();
    match first_difference(lines, &mut wanted) {
        Some(number) => Err(LogStop::Line {
            line: number as u32,
            cause: LogCause::Table,
        }),
        None => Ok(homology),
    }
}
