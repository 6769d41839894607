//! The first three lines of a log: `log 1`, the diagram, the field.

ghost use Rattle.std.specs.Prelude.{◌≡◌, ◌≢◌, ◌+◌, ◌≤◌, None, Err, IfErr, IfOk, IfSome, OnOk, length, true, false};
ghost use Rattle.kh_types.specs.Code.{Code};
ghost use Rattle.kh_types.specs.declared.limits.TheConstants.{INPUT_BYTES};
ghost use Rattle.prime_field.specs.Residues.{IsSmallPrime};
ghost use Rattle.cancel_log.specs.LinesLeft.{TakesLine};
ghost use Rattle.cancel_log.specs.LogLines.{field_line, log_line};
ghost use Rattle.cancel_log.specs.Starts.{IsFieldLine, LacksDiagramLine, LacksFieldLine, NamesNext};
ghost use Rattle.cancel_log.specs.Verdicts.{BeginsAsLog, FailsAtStart, LacksLogLine, NamesDiagram};

use crate::lines::Lines;
use crate::{LogCause, LogStop};
use kh_types::{Diagram, INPUT_BYTES, NoMemory};
use pd_code::{PdStop, read_pd};
use prime_field::FieldSize;
use std::alloc::Global;

/// What the first three lines of a log name.
#[derive(Drop)]
pub(crate) struct Start {
    pub(crate) diagram: Diagram,
    pub(crate) field: FieldSize,
}

/// Takes the first three lines of a log.
#[tactic(auto, using(crate::proofs::StartLines::starts))]
pub(crate) fn take_start(alloc: Global, lines: &mut Lines<'_>) -> Result<Start, LogStop>
    ensures begins { IfOk result (λ start.
        BeginsAsLog lines.old.rest start.diagram start.field lines.new.rest) }
    ensures number { OnOk result (lines.new.number ≡ lines.old.number + 3) }
    ensures fails { IfErr result (λ stop.
        stop ≢ LogStop.NoMemory → FailsAtStart lines.old.rest (Err stop)) }
{
    take_log_line(lines)?;
    let diagram = take_diagram(alloc, lines)?;
    let field = take_field(lines)?;
    Ok(Start { diagram, field })
}

/// Takes the first line.
#[tactic(auto, using(crate::proofs::StartLines::firsts))]
fn take_log_line(lines: &mut Lines<'_>) -> Result<(), LogStop>
    ensures ok { OnOk result (TakesLine lines.old log_line lines.new) }
    ensures lacks { IfErr result (λ stop.
        (stop ≡ LogStop.Line 1 LogCause.Text) × LacksLogLine lines.old.rest) }
{
    if is_log_line(lines) {
        Ok(())
    } else {
        Err(stop_at(1, LogCause::Text))
    }
}

/// Takes a line, if there is one, and answers whether it is `log 1`.
#[tactic(auto, using(crate::proofs::StartLines::firsts))]
fn is_log_line(lines: &mut Lines<'_>) -> bool
    ensures yes { result ≡ true → TakesLine lines.old log_line lines.new }
    ensures no { result ≡ false → LacksLogLine lines.old.rest }
{
    match lines.next() {
        Some(line) => line == b"log 1".as_slice(),
        None => false,
    }
}

/// Takes the line of the diagram.
#[tactic(auto, using(crate::proofs::StartLines::diagrams))]
fn take_diagram(alloc: Global, lines: &mut Lines<'_>) -> Result<Diagram, LogStop>
    ensures ok { IfOk result (NamesNext lines.old lines.new) }
    ensures lacks { IfErr result (λ stop.
        stop ≢ LogStop.NoMemory → LacksDiagramLine lines.old.rest stop) }
{
    let Some(text) = lines.next() else {
        return Err(stop_at(2, LogCause::Text));
    };
    if text.len() > INPUT_BYTES {
        return Err(stop_at(2, LogCause::Text));
    }
    diagram_of(alloc, text)?.ok_or(stop_at(2, LogCause::Diagram))
}

/// The diagram that a text names, if it names one.
#[tactic(auto, using(crate::proofs::StartLines::named))]
fn diagram_of(alloc: Global, text: &[u8]) -> Result<Option<Diagram>, NoMemory>
    requires { length text.now ≤ INPUT_BYTES }
    ensures some { IfOk result (λ found. IfSome found (NamesDiagram text.now)) }
    ensures none { IfOk result (λ found.
        found ≡ None → (code : Code) → NamesDiagram text.now code → ⊥) }
{
    match read_pd(alloc, text) {
        Ok(raw) => Ok(Diagram::try_new(&raw).ok()),
        Err(stop) => match stop {
            PdStop::NoMemory => Err(NoMemory),
            _ => Ok(None),
        },
    }
}

/// Takes the line of the field.
#[tactic(auto, using(crate::proofs::StartLines::fields))]
fn take_field(lines: &mut Lines<'_>) -> Result<FieldSize, LogStop>
    ensures prime { IfOk result IsSmallPrime }
    ensures ok { IfOk result (λ field. TakesLine lines.old (field_line field) lines.new) }
    ensures lacks { IfErr result (λ stop.
        (stop ≡ LogStop.Line 3 LogCause.Text) × LacksFieldLine lines.old.rest) }
{
    field_next(lines).ok_or(stop_at(3, LogCause::Text))
}

/// Takes a line, if there is one, and answers the field whose line it is.
#[tactic(auto, using(crate::proofs::StartLines::fields))]
fn field_next(lines: &mut Lines<'_>) -> Option<FieldSize>
    ensures prime { IfSome result IsSmallPrime }
    ensures some { IfSome result (λ field. TakesLine lines.old (field_line field) lines.new) }
    ensures none { result ≡ None → LacksFieldLine lines.old.rest }
{
    field_in(lines.next()?)
}

/// The stop at a line, for a cause.
fn stop_at(line: u32, cause: LogCause) -> LogStop
    ensures { result ≡ LogStop.Line line cause }
{
    LogStop::Line { line, cause }
}

/// The field whose line a line is.
#[tactic(auto, using(crate::proofs::StartLines::primes))]
fn field_in(line: &[u8]) -> Option<FieldSize>
    ensures { IsFieldLine line.now result }
{
    if line == b"field 2".as_slice() {
        Some(FieldSize::TWO)
    } else if line == b"field 3".as_slice() {
        Some(FieldSize::THREE)
    } else if line == b"field 5".as_slice() {
        Some(FieldSize::FIVE)
    } else if line == b"field 7".as_slice() {
        Some(FieldSize::SEVEN)
    } else {
        None
    }
}
