//! The command `verify`: what the text of a log of cancellations comes to.

ghost use Rattle.std.specs.Prelude.{◌≡◌, ◌≤◌, IfOk, length};
ghost use Rattle.cancel_log.specs.declared.limits.TheConstants.{LOG_BYTES};
ghost use Rattle.kh_runs.specs.Replies.{reply_of};
ghost use Rattle.kh_runs.specs.declared.status.Status.{Status};
ghost use Rattle.kh_work.specs.Verify.{IsVerifyReply, cause_word, verified_text};

use cancel_log::{LogCause, LogStop, verify_log};
use homology_tables::Table;
use kh_replies::too_many_generators;
use kh_runs::{Reply, Status, refused_log_line, reply_made};
use kh_types::NoMemory;
use std::alloc::Global;
use table_text::print_table;

/// The reply to the text of a log.
pub fn reply_to_verify(alloc: Global, text: &[u8]) -> Result<Reply, NoMemory>
    requires { length text.now ≤ LOG_BYTES }
    ensures { IfOk result (IsVerifyReply text.now) }
{
    match verify_log(alloc, text) {
        Ok(homology) => reply_to_proof(alloc, &homology),
        Err(LogStop::Line { line, cause }) => refused_log_line(alloc, line, cause_word(cause)),
        Err(LogStop::SizeLimit { generators }) => too_many_generators(alloc, generators),
        Err(LogStop::NoMemory) => Err(NoMemory),
    }
}

/// The reply to a log that proves a table.
fn reply_to_proof(alloc: Global, homology: &Table) -> Result<Reply, NoMemory>
    ensures { IfOk result (λ reply. reply ≡ reply_of Status.Done (verified_text homology.now)) }
{
    let mut text = Vec::from_slice(alloc, b"verified\n")?;
    text.extend_from_slice(&print_table(alloc, homology)?)?;
    Ok(reply_made(Status::Done, text))
}

/// The word of a cause.
fn cause_word(cause: LogCause) -> &'static str
    ensures { result.now ≡ cause_word cause }
{
    match cause {
        LogCause::Text => "text",
        LogCause::Diagram => "diagram",
        LogCause::Block => "block",
        LogCause::Entry => "entry",
        LogCause::Open => "open",
        LogCause::Table => "table",
    }
}
