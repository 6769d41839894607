//! Why a list is not answered to its end.

ghost use Rattle.std.specs.Prelude.{◌≡◌};
ghost use Rattle.line_answers.specs.ListRuns.{stop_status};

use crate::frame::FrameStop;
use kh_io::Failed;
use kh_runs::Status;
use line_reader::LineStop;

/// Why a list is not answered to its end.
#[derive(Clone, Copy, Debug, PartialEq, Eq)]
pub enum ListStop {
    /// The source failed while it was read.
    ReadFault,
    /// The sink failed while it was written to.
    WriteFault,
    /// The source has 2^64 - 2 bytes and more.
    Limit,
    /// Out of memory for a line, for a reply, or for a frame.
    NoMemory,
}

impl ListStop {
    /// The status with which the run ends.
    pub fn status(self) -> Status
        ensures { result ≡ stop_status self }
    {
        match self {
            ListStop::ReadFault => Status::ReadFault,
            ListStop::WriteFault => Status::WriteFault,
            ListStop::Limit => Status::Limit,
            ListStop::NoMemory => Status::NoMemory,
        }
    }
}

impl From<Failed> for ListStop {
    ghost use Rattle.line_answers.specs.declared.stop.ListStop.{ListStop};

    ghost from_gives = { λ _ stop. stop ≡ ListStop.WriteFault };

    fn from(_: Failed) -> Self {
        ListStop::WriteFault
    }
}

impl From<FrameStop> for ListStop {
    ghost use Rattle.line_answers.specs.ListRuns.{frame_stop};

    ghost from_gives = { λ frame stop. stop ≡ frame_stop frame };

    fn from(stop: FrameStop) -> Self {
        match stop {
            FrameStop::Fault => ListStop::WriteFault,
            FrameStop::NoMemory => ListStop::NoMemory,
        }
    }
}

impl From<LineStop> for ListStop {
    ghost use Rattle.line_answers.specs.ListRuns.{line_stop};

    ghost from_gives = { λ line stop. stop ≡ line_stop line };

    fn from(stop: LineStop) -> Self {
        match stop {
            LineStop::Fault => ListStop::ReadFault,
            LineStop::Limit => ListStop::Limit,
            LineStop::NoMemory => ListStop::NoMemory,
        }
    }
}
