//! Why a run comes to no reply.

ghost use Rattle.std.specs.Prelude.{◌≡◌};

use kh_types::NoMemory;

/// Why there is no reply.
#[derive(Clone, Copy, Debug, PartialEq, Eq)]
pub enum ReplyStop {
    /// The source failed while it was read.
    ReadFault,
    /// The run is out of memory.
    NoMemory,
}

impl From<NoMemory> for ReplyStop {
    ghost use Rattle.kh_runs.specs.declared.stop.ReplyStop.{ReplyStop};

    ghost from_gives = { λ _ stop. stop ≡ ReplyStop.NoMemory };

    fn from(_: NoMemory) -> Self {
        ReplyStop::NoMemory
    }
}
