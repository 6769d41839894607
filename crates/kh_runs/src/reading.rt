//! An input, read from a source up to a limit.

ghost use Rattle.std.specs.Prelude.{◌≡◌, ◌≢◌, ◌-◌, ◌^◌, ◌<◌, IfOk, OnOk, Err};
ghost use Rattle.kh_io.specs.Faults.{Rose};
ghost use Rattle.kh_runs.specs.Told.{IsInput, IsReadOut, IsTaken};

use crate::refusals::too_many_bytes;
use crate::reply::Reply;
use crate::stop::ReplyStop;
use kh_io::{ReadStop, Source, read_most};
use std::alloc::Global;

/// What a source had for a task.
#[derive(Debug, Drop)]
pub enum Input {
    /// All its bytes, which are no more than the limit.
    Bytes(Vec<u8>),
    /// More bytes than the limit, and they are refused with this reply.
    Refused(Reply),
}

/// All bytes of a source that has at most so many; a source that has more is refused, with some of
/// the bytes beyond the limit taken. It stops at the first fault.
pub fn read_input<S: Source>(alloc: Global, source: &mut S, limit: u32) -> Result<Input, ReplyStop>
    requires { limit < 2 ^ 32 - 2 }
    ensures input { IfOk result (IsInput limit (S.left source.old)) }
    ensures taken { IsTaken (S.left source.old) (S.left source.new) }
    ensures read_out { OnOk result (IsReadOut limit (S.left source.old) (S.left source.new)) }
    ensures fault { result ≡ Err ReplyStop.ReadFault
        → Rose (S.faults source.old) (S.faults source.new) }
    ensures stayed { result ≢ Err ReplyStop.ReadFault
        → S.faults source.new ≡ S.faults source.old }
{
    match read_most(alloc, source, limit) {
        Ok(bytes) => Ok(Input::Bytes(bytes)),
        Err(ReadStop::ByteLimit) => Ok(Input::Refused(too_many_bytes(alloc, limit)?)),
        Err(ReadStop::Fault) => Err(ReplyStop::ReadFault),
        Err(ReadStop::NoMemory) => Err(ReplyStop::NoMemory),
    }
}
