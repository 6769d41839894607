//! Why no code was read.

ghost use Rattle.std.specs.Prelude.{◌≡◌};
ghost use Rattle.gauss_code.specs.Stops.{gauss_stop_of};
ghost use Rattle.gauss_code.specs.declared.stop.GaussStop.TheVariants.{NoMemory};

use kh_lex::LexStop;
use std::alloc::{AllocError, AllocFailed};

/// Why no code was read from a text: the first fault of the bytes, else the first of the grammar,
/// else the first of the others in this order, signs behind labels. A place is that of a byte,
/// counted from 0, or the number of bytes where the text ends too early.
#[derive(Clone, Copy, Debug, PartialEq, Eq)]
pub enum GaussStop {
    /// The byte at `place` begins no token, or no text of the grammar has the token there, or the
    /// text ends there too early.
    Text { place: u32 },
    /// The number at `place` is above the greatest size of a number.
    Number { place: u32 },
    /// The text has `count` crossings, half as many as labels, rounded down, which are more than
    /// `CROSSINGS`.
    CrossingLimit { count: u32 },
    /// The text has `count` loops, which are more than `LOOPS`.
    LoopLimit { count: u32 },
    /// The label at `place` is 0, or greater in size than the number of crossings, or equal to an
    /// earlier one; or the sign at `place` is neither 1 nor -1.
    Label { place: u32 },
    /// There are labels, and no signs.
    NoSigns,
    /// There are `found` signs, and `wanted` crossings.
    SignCount { found: u32, wanted: u32 },
    /// Out of memory, whatever the text is.
    NoMemory,
}

impl From<AllocError> for GaussStop {
    ghost from_gives = { λ _ stop. stop ≡ NoMemory };

    fn from(_: AllocError) -> Self {
        GaussStop::NoMemory
    }
}

impl<T: Drop> From<AllocFailed<T>> for GaussStop {
    ghost from_gives = { λ _ stop. stop ≡ NoMemory };

    fn from(_: AllocFailed<T>) -> Self {
        GaussStop::NoMemory
    }
}

impl From<LexStop> for GaussStop {
    ghost from_gives = { λ before stop. stop ≡ gauss_stop_of before };

    fn from(stop: LexStop) -> Self {
        match stop {
            LexStop::Bad { place } => GaussStop::Text { place },
            LexStop::Number { place } => GaussStop::Number { place },
            LexStop::NoMemory => GaussStop::NoMemory,
        }
    }
}
