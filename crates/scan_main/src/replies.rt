//! The reply to one input, and the usage line.

ghost use Rattle.std.specs.Prelude.{◌≡◌, ◌≢◌, ◌≤◌, length, Err, IfOk, OnOk};
ghost use Rattle.kh_io.specs.Faults.{Rose};
ghost use Rattle.kh_types.specs.declared.limits.TheConstants.{INPUT_BYTES};
ghost use Rattle.kh_runs.specs.Runs.{AnswersSource};
ghost use Rattle.kh_runs.specs.Statuses.{IsReplyStatus};
ghost use Rattle.kh_runs.specs.Told.{IsReadOut, IsTaken};
ghost use Rattle.line_answers.specs.Scans.{IsTextReply, IsScanReply, scan_usage};

use crate::table::reply_to_diagram;
use kh_inputs::{InputStop, read_diagram};
use kh_io::Source;
use kh_runs::{Input, Reply, ReplyStop, Status, read_input, reply_made};
use kh_types::{INPUT_BYTES, NoMemory};
use prime_field::FieldSize;
use std::alloc::Global;

/// The reply to words that mean no command.
pub fn usage(alloc: Global) -> Result<Reply, NoMemory>
    ensures { IfOk result (λ reply. reply ≡ scan_usage) }
{
    let line = String::from_str(alloc, "usage: kh-scan [each] [--field FIELD]\n")?;
    Ok(reply_made(Status::Usage, line.into_bytes()))
}

/// The reply to all bytes of a source, over a field.
pub fn reply_to_source<S: Source>(
    alloc: Global,
    field: FieldSize,
    source: &mut S,
) -> Result<Reply, ReplyStop>
    ensures answered { IfOk result (AnswersSource (IsScanReply field) (S.left source.old)) }
    ensures status { IfOk result (λ reply. IsReplyStatus reply.status) }
    ensures taken { IsTaken (S.left source.old) (S.left source.new) }
    ensures read_out { OnOk result (IsReadOut INPUT_BYTES (S.left source.old) (S.left source.new)) }
    ensures fault { result ≡ Err ReplyStop.ReadFault
        → Rose (S.faults source.old) (S.faults source.new) }
    ensures stayed { result ≢ Err ReplyStop.ReadFault
        → S.faults source.new ≡ S.faults source.old }
{
    match read_input(alloc, source, INPUT_BYTES as u32)? {
        Input::Bytes(bytes) => Ok(reply_to_bytes(alloc, field, &bytes)?),
        Input::Refused(reply) => Ok(reply),
    }
}

/// The reply to the bytes of an input, over a field.
pub fn reply_to_bytes(alloc: Global, field: FieldSize, bytes: &[u8]) -> Result<Reply, NoMemory>
    requires { length bytes.now ≤ INPUT_BYTES }
    ensures reply { IfOk result (IsTextReply field bytes.now) }
    ensures status { IfOk result (λ reply. IsReplyStatus reply.status) }
{
    match read_diagram(alloc, bytes) {
        Ok(diagram) => reply_to_diagram(alloc, field, &diagram),
        Err(InputStop::Refused(reply)) => Ok(reply),
        Err(InputStop::NoMemory) => Err(NoMemory),
    }
}
