//! Why a log was not verified.

ghost use Rattle.std.specs.Prelude.{◌≡◌};
ghost use Rattle.cancel_log.specs.declared.stop.LogStop.TheVariants.{NoMemory, SizeLimit};

use crate::LogCause;
use cube_signs::SizeLimit as TooLarge;
use kh_types as types;
use std::alloc::AllocFailed;

/// Why a log was not verified.
#[derive(Clone, Copy, Debug, PartialEq, Eq)]
pub enum LogStop {
    /// The first line that fails, counted from 1, and why.
    Line { line: u32, cause: LogCause },
    /// The diagram has so many generators, which are more than `GENERATORS`.
    SizeLimit { generators: u128 },
    /// Out of memory, whatever the log is.
    NoMemory,
}

impl From<types::NoMemory> for LogStop {
    ghost from_gives = { λ _ stop. stop ≡ NoMemory };

    fn from(_: types::NoMemory) -> Self {
        LogStop::NoMemory
    }
}

impl<T: Drop> From<AllocFailed<T>> for LogStop {
    ghost from_gives = { λ _ stop. stop ≡ NoMemory };

    fn from(_: AllocFailed<T>) -> Self {
        LogStop::NoMemory
    }
}

impl From<TooLarge> for LogStop {
    ghost from_gives = { λ limit stop. stop ≡ SizeLimit limit.generators };

    fn from(limit: TooLarge) -> Self {
        LogStop::SizeLimit {
            generators: limit.generators,
        }
    }
}
