//! Why no code was read.

ghost use Rattle.std.specs.Prelude.{◌≡◌};
ghost use Rattle.pd_code.specs.Stops.{pd_stop_of};
ghost use Rattle.pd_code.specs.declared.stop.PdStop.TheVariants.{NoMemory};

use kh_lex::LexStop;
use std::alloc::{AllocError, AllocFailed};

/// Why no code was read from a text. The first fault of the bytes counts, else the first of the
/// grammar, else a limit, crossings before loops. A place is that of a byte, counted from 0, or the
/// number of bytes where the text ends too early.
#[derive(Clone, Copy, Debug, PartialEq, Eq)]
pub enum PdStop {
    /// The byte at `place` begins no token, or no text of the grammar has the token there, or the
    /// text ends there too early.
    Text { place: u32 },
    /// The number at `place` is above the greatest size of a number.
    Number { place: u32 },
    /// The text has `count` crossings, which are more than `CROSSINGS`.
    CrossingLimit { count: u32 },
    /// The text has `count` loops, which are more than `LOOPS`.
    LoopLimit { count: u32 },
    /// Out of memory, whatever the text is.
    NoMemory,
}

impl From<AllocError> for PdStop {
    ghost from_gives = { λ _ stop. stop ≡ NoMemory };

    fn from(_: AllocError) -> Self {
        PdStop::NoMemory
    }
}

impl<T: Drop> From<AllocFailed<T>> for PdStop {
    ghost from_gives = { λ _ stop. stop ≡ NoMemory };

    fn from(_: AllocFailed<T>) -> Self {
        PdStop::NoMemory
    }
}

impl From<LexStop> for PdStop {
    ghost from_gives = { λ before stop. stop ≡ pd_stop_of before };

    fn from(stop: LexStop) -> Self {
        match stop {
            LexStop::Bad { place } => PdStop::Text { place },
            LexStop::Number { place } => PdStop::Number { place },
            LexStop::NoMemory => PdStop::NoMemory,
        }
    }
}
