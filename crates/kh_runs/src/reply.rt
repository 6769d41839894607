//! What a run answers, made whole before anything is written.

ghost use Rattle.std.specs.Prelude.{◌≡◌, IfOk, string_bytes};
ghost use Rattle.kh_runs.specs.Replies.{reply_of};

use crate::status::Status;
use kh_types::NoMemory;
use std::alloc::Global;
use std::marker::Model;

/// A status, and the bytes to write with it. Contracts see it as plain data of the same name.
#[derive(Debug, Drop)]
pub struct Reply {
    status: Status,
    text: Vec<u8>,
}

impl Model for Reply {
    ghost use Rattle.kh_runs.specs.Replies.{Reply, reply_inside};

    ghost Value = { Reply };

    ghost view = { reply_inside };
}

impl Reply {
    /// How the run ends once the bytes are written.
    pub fn status(&self) -> Status
        ensures { result ≡ self.now.status }
    {
        self.status
    }

    /// All that the run writes.
    pub fn bytes(&self) -> &[u8]
        ensures { result.now ≡ self.now.text }
    {
        self.text.as_slice()
    }
}

/// The reply of a status and the bytes to write.
pub fn reply_made(status: Status, text: Vec<u8>) -> Reply
    ensures { result ≡ reply_of status text.items }
{
    Reply { status, text }
}

/// The reply of a status and a text.
pub fn reply_with(status: Status, text: String) -> Reply
    ensures { result ≡ reply_of status (string_bytes text) }
{
    reply_made(status, text.into_bytes())
}

/// The reply of a status and a line that is known beforehand.
pub fn fixed_reply(alloc: Global, status: Status, line: &str) -> Result<Reply, NoMemory>
    ensures { IfOk result (λ reply. reply ≡ reply_of status line.now) }
{
    Ok(reply_with(status, String::from_str(alloc, line)?))
}
