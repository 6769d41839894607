//! The command `union`: a diagram and a second one, which is read now.

ghost use Rattle.std.specs.Prelude.{◌≡◌, ◌≤◌, IfOk, length};
ghost use Rattle.kh_types.specs.declared.limits.TheConstants.{INPUT_BYTES};
ghost use Rattle.kh_work.specs.Union.{IsUnionReply, second_refused};

use kh_inputs::{InputStop, read_diagram};
use kh_replies::reply_to_pair;
use kh_runs::{Reply, reply_made};
use kh_types::{Diagram, NoMemory};
use std::alloc::Global;

/// The reply to a diagram and the text of a second one, which is read now.
pub fn reply_to_union(alloc: Global, first: &Diagram, text: &[u8]) -> Result<Reply, NoMemory>
    requires few { length text.now ≤ INPUT_BYTES }
    ensures { IfOk result (λ reply. IsUnionReply first.now text.now reply) }
{
    match read_diagram(alloc, text) {
        Ok(second) => reply_to_pair(alloc, first, &second),
        Err(InputStop::Refused(reply)) => second_refused(alloc, &reply),
        Err(InputStop::NoMemory) => Err(NoMemory),
    }
}

/// The refusal of a second code: a line that says so before its own.
fn second_refused(alloc: Global, refusal: &Reply) -> Result<Reply, NoMemory>
    ensures { IfOk result (λ reply. reply ≡ second_refused refusal.now) }
{
    let mut text = Vec::from_slice(alloc, b"second\n")?;
    text.extend_from_slice(refusal.bytes())?;
    Ok(reply_made(refusal.status(), text))
}
