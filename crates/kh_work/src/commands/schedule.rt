//! The command `schedule`: what the core answers to the lines of a script, and then the homology
//! table.

ghost use Rattle.std.specs.Prelude.{◌≡◌, ◌≤◌, ◌++◌, All, IfOk, OnOk, length, string_bytes};
ghost use Rattle.commit_core.specs.Answering.{answers};
ghost use Rattle.kh_types.specs.Table.{table, table_text};
ghost use Rattle.kh_types.specs.declared.limits.TheConstants.{INPUT_BYTES};
ghost use Rattle.kh_work.specs.Schedule.{IsScheduleReply, answer_line, answer_lines, answer_text, event_of, events_of, numbered_answers, schedule_reply, schedule_text};
ghost use Rattle.kh_types.specs.declared.limits.TheConstants.{WORKERS};
ghost use Rattle.undo_stack.specs.Schedule.{HasWorker};

use circle_smoothing::CountedDiagram;
use commit_core::{Answer, Event, run_events};
use cube_signs::SmallDiagram;
use homology_tables::Table;
use kh_replies::{jones_line, too_many_generators};
use kh_runs::{Reply, Status, refused_line, reply_made, too_many_lines};
use kh_types::{Diagram, NoMemory, WORKERS};
use prime_field::{FieldSize, PrimeField, over_field};
use std::alloc::Global;
use table_text::print_table;
use undo_stack::{SCRIPT_LINES, ScheduleLine, ScriptStop, read_schedule};

/// The reply to a diagram and the text of a script: the answer to each line that has words, and
/// then the text of `homology`.
pub fn reply_to_schedule(
    alloc: Global,
    field: FieldSize,
    diagram: &Diagram,
    script: &[u8],
) -> Result<Reply, NoMemory>
    requires short { length script.now ≤ INPUT_BYTES }
    ensures { IfOk result (λ reply. IsScheduleReply field diagram.now script.now reply) }
{
    match read_schedule(alloc, script) {
        Ok(script) => reply_to_script(alloc, field, diagram, &script.lines),
        Err(ScriptStop::LineLimit { count }) => too_many_lines(alloc, count, SCRIPT_LINES),
        Err(ScriptStop::Line { line }) => refused_line(alloc, line),
        Err(ScriptStop::NoMemory) => Err(NoMemory),
    }
}

/// The reply to a script, where the diagram has few enough generators.
fn reply_to_script(
    alloc: Global,
    field: FieldSize,
    diagram: &Diagram,
    script: &[(u32, ScheduleLine)],
) -> Result<Reply, NoMemory>
    requires workers { All HasWorker script.now }
    ensures { IfOk result (λ reply. reply ≡ schedule_reply field diagram.now script.now) }
{
    match SmallDiagram::try_new(CountedDiagram::of_diagram(diagram)) {
        Ok(small) => {
            let text = schedule_text(alloc, field, &small, script)?;
            Ok(reply_made(Status::Done, text))
        }
        Err(limit) => too_many_generators(alloc, limit.generators),
    }
}

/// The lines of the answers, the text of the homology table and the Jones line, which is read from
/// the counts of the diagram's states.
fn schedule_text(
    alloc: Global,
    field: FieldSize,
    small: &SmallDiagram,
    script: &[(u32, ScheduleLine)],
) -> Result<Vec<u8>, NoMemory>
    requires workers { All HasWorker script.now }
    ensures { IfOk result (λ text. text.items ≡ schedule_text field small.now script.now) }
{
    let mut text = run_text(alloc, field, small, script)?;
    text.extend_from_slice(&jones_line(alloc, small.counted())?)?;
    Ok(text)
}

/// The lines of the answers, and the text of the homology table.
fn run_text(
    alloc: Global,
    field: FieldSize,
    small: &SmallDiagram,
    script: &[(u32, ScheduleLine)],
) -> Result<Vec<u8>, NoMemory>
    requires workers { All HasWorker script.now }
    ensures { IfOk result (λ text. text.items
        ≡ answer_lines script.now (answers field small.now WORKERS (events_of script.now))
        ++ table_text (table field small.now)) }
{
    over_field!(field, run_text_over(alloc, small, script))
}

fn run_text_over<F: PrimeField>(
    alloc: Global,
    small: &SmallDiagram,
    script: &[(u32, ScheduleLine)],
) -> Result<Vec<u8>, NoMemory>
    requires workers { All HasWorker script.now }
    ensures { IfOk result (λ text. text.items
        ≡ answer_lines script.now (answers F.P small.now WORKERS (events_of script.now))
        ++ table_text (table F.P small.now)) }
{
    let diagram = small.counted().diagram();
    let events = events_of(alloc, script)?;
    let run = run_events::<F>(alloc, diagram, WORKERS, &events)?;
    let text = text_of_run(alloc, script, &run.answers, &run.table)?;
    Ok(text)
}

/// The lines of answers, and the text of a table.
fn text_of_run(
    alloc: Global,
    script: &[(u32, ScheduleLine)],
    answers: &[Answer],
    table: &Table,
) -> Result<Vec<u8>, NoMemory>
    ensures { IfOk result (λ text. text.items
        ≡ answer_lines script.now answers.now ++ table_text table.now) }
{
    let mut text = answer_lines(alloc, script, answers)?;
    text.extend_from_slice(&print_table(alloc, table)?)?;
    Ok(text)
}

/// What the lines let their workers do.
fn events_of(alloc: Global, script: &[(u32, ScheduleLine)]) -> Result<Vec<Event>, NoMemory>
    ensures { IfOk result (λ events. events.items ≡ events_of script.now) }
{
    Ok(script.iter().map(|line| event_of(line.1)).collect(alloc)?)
}

/// What a line lets its worker do.
fn event_of(line: ScheduleLine) -> Event
    ensures { result ≡ event_of line }
{
    match line {
        ScheduleLine::Look { worker, block } => Event::Look {
            worker,
            block,
            hint: 0,
        },
        ScheduleLine::Commit { worker } => Event::Commit { worker },
        ScheduleLine::Forget { worker } => Event::Forget { worker },
    }
}

/// The lines of answers.
fn answer_lines(
    alloc: Global,
    script: &[(u32, ScheduleLine)],
    answers: &[Answer],
) -> Result<Vec<u8>, NoMemory>
    ensures { IfOk result (λ text. text.items ≡ answer_lines script.now answers.now) }
{
    let numbered = numbered_answers(alloc, script, answers)?;
    let lines = numbered.as_slice();
    let mut text = String::new(alloc);
    'lines: for line in lines {
        push_answer(alloc, &mut text, *line)?;
    }
    Ok(text.into_bytes())
}

/// Each answer with the number of its line.
fn numbered_answers(
    alloc: Global,
    script: &[(u32, ScheduleLine)],
    answers: &[Answer],
) -> Result<Vec<(u32, Answer)>, NoMemory>
    ensures { IfOk result (λ pairs. pairs.items ≡ numbered_answers script.now answers.now) }
{
    let pairs = script.iter().zip(answers.iter());
    let numbered = pairs.map(|(line, answer)| (line.0, *answer));
    Ok(numbered.collect(alloc)?)
}

/// Adds the line of an answer with its number.
fn push_answer(alloc: Global, text: &mut String, answer: (u32, Answer)) -> Result<(), NoMemory>
    ensures { OnOk result (string_bytes text.new ≡ string_bytes text.old ++ answer_line answer) }
{
    let (number, answer) = answer;
    let words = answer_text(alloc, answer)?;
    let line = format!(in alloc; "{number} {words}\n")?;
    text.push_str(line.as_str())?;
    Ok(())
}

/// The words of an answer.
fn answer_text(alloc: Global, answer: Answer) -> Result<String, NoMemory>
    ensures { IfOk result (λ text. string_bytes text ≡ answer_text answer) }
{
    Ok(match answer {
        Answer::Looked { version } => format!(in alloc; "looked {version}")?,
        Answer::Zero => String::from_str(alloc, "zero")?,
        Answer::Committed { version } => format!(in alloc; "committed {version}")?,
        Answer::Stale { looked, now } => format!(in alloc; "stale {looked} {now}")?,
        Answer::Idle => String::from_str(alloc, "idle")?,
        Answer::Forgot => String::from_str(alloc, "forgot")?,
        Answer::NoBlock => String::from_str(alloc, "noblock")?,
    })
}
