//! Replies in frames.

ghost use Rattle.std.specs.Prelude.{◌≡◌, ◌≢◌, ℕ, ◌+◌, List, [], ◌∷◌, take, Some, Err, IfErr, IfOk};
ghost use Rattle.std.specs.Io.KnownBytes.{Appends};
ghost use Rattle.kh_io.specs.Faults.{Rose};
ghost use Rattle.kh_types.specs.declared.limits.TheConstants.{INPUT_BYTES};
ghost use Rattle.kh_runs.specs.LimitedReplies.{IsLimitedReply};
ghost use Rattle.line_reader.specs.Lines.{kept};
ghost use Rattle.line_answers.specs.Answered.{AreAnswered, IsPartWritten};
ghost use Rattle.line_answers.specs.Frames.{frame};
ghost use Rattle.line_answers.specs.Questions.{numbered_line, question};

use crate::answering::Answering;
use kh_io::{Failed, Sink, write_all};
use kh_runs::{Reply, Status, reply_made, too_many_bytes};
use kh_types::{INPUT_BYTES, NoMemory};
use line_reader::Line;
use prime_field::{Elements, FieldSize};
use std::alloc::Global;

/// Why a frame is not written whole.
#[derive(Clone, Copy, Debug, PartialEq, Eq)]
pub enum FrameStop {
    /// The sink failed.
    Fault,
    /// Out of memory for the frame, of which nothing is written.
    NoMemory,
}

impl From<Failed> for FrameStop {
    ghost use Rattle.line_answers.specs.declared.frame.FrameStop.{FrameStop};

    ghost from_gives = { λ _ stop. stop ≡ FrameStop.Fault };

    fn from(_: Failed) -> Self {
        FrameStop::Fault
    }
}

impl From<NoMemory> for FrameStop {
    ghost use Rattle.line_answers.specs.declared.frame.FrameStop.{FrameStop};

    ghost from_gives = { λ _ stop. stop ≡ FrameStop.NoMemory };

    fn from(_: NoMemory) -> Self {
        FrameStop::NoMemory
    }
}

/// A line of a list.
#[derive(Clone, Copy)]
pub struct Asked<'a> {
    /// The number of the line, from 1.
    pub number: u64,
    /// What is kept of the line.
    pub line: &'a Line,
}

/// Answers a line over a field, and writes the reply in its frame; out of memory for the reply, one
/// that says so. Whether there was memory.
pub fn answer<A: Answering, K: Sink>(
    alloc: Global,
    answering: &A,
    field: FieldSize,
    asked: Asked<'_>,
    sink: &mut K,
) -> Result<bool, FrameStop>
    ensures answered { (bytes : List ℕ) → asked.entry.line.now ≡ kept bytes
        → AreAnswered (A.answers answering.now) (question (numbered_line asked.entry.number bytes) field ∷ [])
        (K.written sink.old) (K.written sink.new) result }
    ensures fault { result ≡ Err FrameStop.Fault → Rose (K.faults sink.old) (K.faults sink.new) }
    ensures stayed { result ≢ Err FrameStop.Fault → K.faults sink.new ≡ K.faults sink.old }
{
    match reply_to_line(alloc, answering, field, asked.line.bytes()) {
        Ok(reply) => {
            write_frame(alloc, asked.number, field, &reply, sink)?;
            Ok(true)
        }
        Err(NoMemory) => {
            let none = reply_made(Status::NoMemory, Vec::new(alloc));
            write_frame(alloc, asked.number, field, &none, sink)?;
            Ok(false)
        }
    }
}

/// Writes the frame of a reply.
fn write_frame<K: Sink>(
    alloc: Global,
    number: u64,
    field: FieldSize,
    reply: &Reply,
    sink: &mut K,
) -> Result<(), FrameStop>
    ensures whole { IfOk result (λ _. Appends (K.written sink.old) (K.written sink.new) (frame number field reply.now)) }
    ensures part { IfErr result (IsPartWritten (frame number field reply.now) (K.written sink.old) (K.written sink.new)) }
    ensures fault { result ≡ Err FrameStop.Fault → Rose (K.faults sink.old) (K.faults sink.new) }
    ensures stayed { result ≢ Err FrameStop.Fault → K.faults sink.new ≡ K.faults sink.old }
{
    let text = frame(alloc, number, field, reply)?;
    write_all(sink, &text)?;
    Ok(())
}

/// The reply to a line, of which the first bytes are given.
fn reply_to_line<A: Answering>(
    alloc: Global,
    answering: &A,
    field: FieldSize,
    bytes: &[u8],
) -> Result<Reply, NoMemory>
    ensures { IfOk result (λ reply. (line : List ℕ) → bytes.now ≡ take (INPUT_BYTES + 1) line
        → IsLimitedReply (Some INPUT_BYTES) line (A.answers answering.now field line) reply) }
{
    if bytes.len() > INPUT_BYTES {
        too_many_bytes(alloc, INPUT_BYTES as u32)
    } else {
        answering.reply(alloc, field, bytes)
    }
}

/// The frame of a reply.
fn frame(alloc: Global, number: u64, field: FieldSize, reply: &Reply) -> Result<Vec<u8>, NoMemory>
    ensures { IfOk result (λ text. text.items ≡ frame number field reply.now) }
{
    let (elements, status) = (elements_of(field), reply.status().number());
    let size = reply.bytes().len();
    let line = format!(in alloc; "code {number} field {elements} status {status} bytes {size}\n")?;
    let mut text = line.into_bytes();
    text.extend_from_slice(reply.bytes())?;
    Ok(text)
}

/// How many elements a field has.
fn elements_of(field: FieldSize) -> u8
    ensures { result ≡ field }
{
    match field.elements() {
        Elements::Two => 2,
        Elements::Three => 3,
        Elements::Five => 5,
        Elements::Seven => 7,
    }
}
