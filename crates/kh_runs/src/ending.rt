//! A reply, or a stop without one, is written, and a run ends.

ghost use Rattle.std.specs.Prelude.{◌≡◌};
ghost use Rattle.kh_runs.specs.Runs.{IsWritten};
ghost use Rattle.kh_runs.specs.Told.{seen};

use crate::reply::Reply;
use crate::status::Status;
use crate::stop::ReplyStop;
use kh_io::{Sink, write_all};

/// Writes a reply, if there is one, and answers how the run ends.
pub fn written<K: Sink>(sink: &mut K, made: Result<Reply, ReplyStop>) -> Status
    ensures { IsWritten made
        (seen (K.written sink.old) (K.faults sink.old)) (seen (K.written sink.new) (K.faults sink.new))
        (sink.new ≡ sink.old) result }
{
    match made {
        Ok(reply) => match write_all(sink, reply.bytes()) {
            Ok(()) => reply.status(),
            Err(_) => Status::WriteFault,
        },
        Err(ReplyStop::ReadFault) => Status::ReadFault,
        Err(ReplyStop::NoMemory) => Status::NoMemory,
    }
}
