//! A list is read line by line, and each line answered before the next is read.

ghost use Rattle.std.specs.Prelude.{◌≡◌, ◌≢◌, ◌⊎◌, ℕ, List, map, Err};
ghost use Rattle.kh_io.specs.Faults.{Rose};
ghost use Rattle.kh_lex.specs.Lines.{HasNoLineFeed};
ghost use Rattle.line_reader.specs.Advances.{IsReadForLine};
ghost use Rattle.line_reader.specs.Lines.{kept};
ghost use Rattle.kh_runs.specs.Told.{seen};
ghost use Rattle.line_answers.specs.Answered.{AreAnswered};
ghost use Rattle.line_answers.specs.ListRuns.{IsListRun, end_status, status_of};
ghost use Rattle.line_answers.specs.Turns.{IsTurn};
ghost use Rattle.line_answers.specs.Questions.{asked_by, numbered_line, question};

use crate::answering::Answering;
use crate::frame::{Asked, FrameStop, answer};
use crate::stop::ListStop;
use kh_io::{Sink, Source, write_all};
use kh_runs::Status;
use line_reader::{Buffered, NextLine, next_line};
use prime_field::FieldSize;
use std::alloc::Global;

/// The first line of what is written, with the version of the frames.
const FIRST_LINE: &str = "answers 1\n";

/// How a turn of a list went: what was answered, and whether there was memory for each reply.
#[derive(Clone, Copy, Debug, PartialEq, Eq)]
pub enum Turn {
    /// A line that a line feed ends.
    Ended(bool),
    /// What follows the last line feed: the list is at its end.
    Last(bool),
}

/// Answers each line of a source that is not blank, over each of the fields, as soon as it has been
/// read, and writes each reply in a frame behind a first line. Where memory is wanting for a reply,
/// a frame says so, and it goes on. Answers how the run ended.
pub fn answer_list<A: Answering, S: Source, K: Sink>(
    alloc: Global,
    answering: &A,
    fields: &[FieldSize],
    source: &mut S,
    sink: &mut K,
) -> Status
    ensures { IsListRun (A.answers answering.now) fields.now
        (seen (S.left source.old) (S.faults source.old)) (seen (S.left source.new) (S.faults source.new))
        (seen (K.written sink.old) (K.faults sink.old)) (seen (K.written sink.new) (K.faults sink.new)) result }
{
    match lines_answered(alloc, answering, fields, source, sink) {
        Ok(()) => Status::Done,
        Err(stop) => stop.status(),
    }
}

/// Answers all lines of a source.
fn lines_answered<A: Answering, S: Source, K: Sink>(
    alloc: Global,
    answering: &A,
    fields: &[FieldSize],
    source: &mut S,
    sink: &mut K,
) -> Result<(), ListStop>
    ensures { IsListRun (A.answers answering.now) fields.now
        (seen (S.left source.old) (S.faults source.old)) (seen (S.left source.new) (S.faults source.new))
        (seen (K.written sink.old) (K.faults sink.old)) (seen (K.written sink.new) (K.faults sink.new))
        (status_of result) }
{
    write_all(sink, FIRST_LINE.as_bytes())?;
    let mut buffered = Buffered::new();
    let mut whole = true;
    'lines: for number in 1..u64::MAX {
        match answer_next(
            alloc,
            answering,
            fields,
            number,
            source,
            &mut buffered,
            sink,
        )? {
            Turn::Ended(made) => whole &= made,
            Turn::Last(made) => {
                whole &= made;
                return ended(whole);
            }
        }
    }
    Err(ListStop::Limit)
}

/// One turn of a list: the line of this number is taken, for which the source is read no further
/// than `next_line` reads it, and then it is answered over each of the fields, unless it is blank.
/// Nothing else is read or written.
pub fn answer_next<A: Answering, S: Source, K: Sink>(
    alloc: Global,
    answering: &A,
    fields: &[FieldSize],
    number: u64,
    source: &mut S,
    buffered: &mut Buffered,
    sink: &mut K,
) -> Result<Turn, ListStop>
    ensures turn { IsTurn (A.answers answering.now) fields.now number buffered.old buffered.new
        (seen (S.left source.old) (S.faults source.old)) (seen (S.left source.new) (S.faults source.new))
        (seen (K.written sink.old) (K.faults sink.old)) (seen (K.written sink.new) (K.faults sink.new)) result }
    ensures unread { ¬ HasNoLineFeed buffered.old → source.new ≡ source.old }
    ensures read { (source.new ≡ source.old) ⊎ IsReadForLine buffered.old buffered.new
        (S.left source.old) (S.left source.new) (S.reads source.old) (S.reads source.new) }
{
    match next_line(alloc, source, buffered)? {
        NextLine::Ended(line) => {
            let asked = Asked {
                number,
                line: &line,
            };
            let whole = answer_over(alloc, answering, fields, asked, sink)?;
            Ok(Turn::Ended(whole))
        }
        NextLine::Last(line) => {
            let asked = Asked {
                number,
                line: &line,
            };
            let whole = answer_over(alloc, answering, fields, asked, sink)?;
            Ok(Turn::Last(whole))
        }
    }
}

/// How a list ends that was read to its end: out of memory where that was wanting for some reply.
fn ended(whole: bool) -> Result<(), ListStop>
    ensures { status_of result ≡ end_status whole }
{
    if whole {
        Ok(())
    } else {
        Err(ListStop::NoMemory)
    }
}

/// Answers a line over each of some fields, unless it is blank. Whether there was memory for each
/// reply.
fn answer_over<A: Answering, K: Sink>(
    alloc: Global,
    answering: &A,
    fields: &[FieldSize],
    asked: Asked<'_>,
    sink: &mut K,
) -> Result<bool, FrameStop>
    ensures answered { (bytes : List ℕ) → asked.entry.line.now ≡ kept bytes
        → AreAnswered (A.answers answering.now) (asked_by fields.now (numbered_line asked.entry.number bytes))
        (K.written sink.old) (K.written sink.new) result }
    ensures fault { result ≡ Err FrameStop.Fault → Rose (K.faults sink.old) (K.faults sink.new) }
    ensures stayed { result ≢ Err FrameStop.Fault → K.faults sink.new ≡ K.faults sink.old }
{
    if asked.line.has_code() {
        answer_over_each(alloc, answering, fields, asked, sink)
    } else {
        Ok(true)
    }
}

/// Answers a line over each of some fields. Whether there was memory for each reply.
fn answer_over_each<A: Answering, K: Sink>(
    alloc: Global,
    answering: &A,
    fields: &[FieldSize],
    asked: Asked<'_>,
    sink: &mut K,
) -> Result<bool, FrameStop>
    ensures answered { (bytes : List ℕ) → asked.entry.line.now ≡ kept bytes
        → AreAnswered (A.answers answering.now) (map (question (numbered_line asked.entry.number bytes)) fields.now)
        (K.written sink.old) (K.written sink.new) result }
    ensures fault { result ≡ Err FrameStop.Fault → Rose (K.faults sink.old) (K.faults sink.new) }
    ensures stayed { result ≢ Err FrameStop.Fault → K.faults sink.new ≡ K.faults sink.old }
{
    let mut whole = true;
    'fields: for field in fields {
        whole &= answer(alloc, answering, *field, asked, sink)?;
    }
    Ok(whole)
}
