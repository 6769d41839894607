//! The top call: it reads, answers and writes.

ghost use Rattle.std.specs.Prelude.{◌≡◌, IfErr, IfOk, IsErr};
ghost use Rattle.kh_runs.specs.Told.{seen};
ghost use Rattle.scan_main.specs.ScanRuns.{IsAnsweredOver, IsDoneFor, IsReplyToNone, IsScanRun, KeepsListHeadline, KeepsScanHeadline};

use crate::list::answer_each;
use crate::replies::{reply_to_source, usage};
use kh_io::{Sink, Source};
use kh_runs::{Reply, ReplyStop, Status, written};
use kh_types::Words;
use prime_field::FieldSize;
use std::alloc::Global;
use word_line::{ScanCommand, WordStop, read_scan_words};

/// Does all that the program does: takes the words after the program's name; reads one input to its
/// end, makes the whole answer, and writes it; or answers the lines of a list one by one. Answers
/// how the run ended.
pub fn run<S: Source, K: Sink>(alloc: Global, words: &Words, source: &mut S, sink: &mut K) -> Status
    ensures run { IsScanRun words.now
        (seen (S.left source.old) (S.faults source.old)) (seen (S.left source.new) (S.faults source.new))
        (seen (K.written sink.old) (K.faults sink.old)) (seen (K.written sink.new) (K.faults sink.new))
        (source.new ≡ source.old) (sink.new ≡ sink.old) result }
    ensures headline { KeepsScanHeadline words.now
        (seen (S.left source.old) (S.faults source.old)) (seen (S.left source.new) (S.faults source.new))
        (seen (K.written sink.old) (K.faults sink.old)) (seen (K.written sink.new) (K.faults sink.new)) result }
    ensures lists { KeepsListHeadline words.now
        (seen (S.left source.old) (S.faults source.old)) (seen (S.left source.new) (S.faults source.new))
        (seen (K.written sink.old) (K.faults sink.old)) (seen (K.written sink.new) (K.faults sink.new)) result }
{
    match read_scan_words(alloc, words) {
        Ok(command) => run_command(alloc, command, source, sink),
        Err(stop) => written(sink, reply_to_none(alloc, stop)),
    }
}

/// Does the same with the words that a system has given; where it has given none, ends with the
/// status that stands for that, and neither reads nor writes.
pub fn run_given<S: Source, K: Sink>(
    alloc: Global,
    given: Result<Words, Status>,
    source: &mut S,
    sink: &mut K,
) -> Status
    ensures run { IfOk given (λ words. IsScanRun words
        (seen (S.left source.old) (S.faults source.old)) (seen (S.left source.new) (S.faults source.new))
        (seen (K.written sink.old) (K.faults sink.old)) (seen (K.written sink.new) (K.faults sink.new))
        (source.new ≡ source.old) (sink.new ≡ sink.old) result) }
    ensures headline { IfOk given (λ words. KeepsScanHeadline words
        (seen (S.left source.old) (S.faults source.old)) (seen (S.left source.new) (S.faults source.new))
        (seen (K.written sink.old) (K.faults sink.old)) (seen (K.written sink.new) (K.faults sink.new)) result) }
    ensures lists { IfOk given (λ words. KeepsListHeadline words
        (seen (S.left source.old) (S.faults source.old)) (seen (S.left source.new) (S.faults source.new))
        (seen (K.written sink.old) (K.faults sink.old)) (seen (K.written sink.new) (K.faults sink.new)) result) }
    ensures ended { IfErr given (λ status. result ≡ status) }
    ensures unread { IsErr given → source.new ≡ source.old }
    ensures unwritten { IsErr given → sink.new ≡ sink.old }
{
    match given {
        Ok(words) => run(alloc, &words, source, sink),
        Err(status) => status,
    }
}

/// Does what a command asks for.
fn run_command<S: Source, K: Sink>(
    alloc: Global,
    command: ScanCommand,
    source: &mut S,
    sink: &mut K,
) -> Status
    ensures { IsDoneFor command
        (seen (S.left source.old) (S.faults source.old)) (seen (S.left source.new) (S.faults source.new))
        (seen (K.written sink.old) (K.faults sink.old)) (seen (K.written sink.new) (K.faults sink.new))
        (sink.new ≡ sink.old) result }
{
    match command {
        ScanCommand::Alone(field) => run_alone(alloc, field, source, sink),
        ScanCommand::Each(fields) => answer_each(alloc, fields, source, sink),
    }
}

/// Answers one input over a field.
fn run_alone<S: Source, K: Sink>(
    alloc: Global,
    field: FieldSize,
    source: &mut S,
    sink: &mut K,
) -> Status
    ensures { IsAnsweredOver field
        (seen (S.left source.old) (S.faults source.old)) (seen (S.left source.new) (S.faults source.new))
        (seen (K.written sink.old) (K.faults sink.old)) (seen (K.written sink.new) (K.faults sink.new))
        (sink.new ≡ sink.old) result }
{
    let made = reply_to_source(alloc, field, source);
    written(sink, made)
}

/// What there is for words that give no command: the usage line, or a stop.
fn reply_to_none(alloc: Global, stop: WordStop) -> Result<Reply, ReplyStop>
    ensures { IsReplyToNone stop result }
{
    match stop {
        WordStop::Usage => Ok(usage(alloc)?),
        WordStop::NoMemory => Err(ReplyStop::NoMemory),
    }
}
