//! Why a text has no tokens.

ghost use Rattle.std.specs.Prelude.{◌≡◌};
ghost use Rattle.kh_lex.specs.declared.stop.LexStop.TheVariants.{NoMemory};

use std::alloc::{AllocError, AllocFailed};

/// Why a text has no tokens: its first fault, at the place of a byte, counted from 0.
#[derive(Clone, Copy, Debug, PartialEq, Eq)]
pub enum LexStop {
    /// The byte at `place` begins no token.
    Bad { place: u32 },
    /// The number at `place` is above `NUMBER_LIMIT` in size.
    Number { place: u32 },
    /// Out of memory, whatever the text is.
    NoMemory,
}

impl From<AllocError> for LexStop {
    ghost from_gives = { λ _ stop. stop ≡ NoMemory };

    fn from(_: AllocError) -> Self {
        LexStop::NoMemory
    }
}

impl<T: Drop> From<AllocFailed<T>> for LexStop {
    ghost from_gives = { λ _ stop. stop ≡ NoMemory };

    fn from(_: AllocFailed<T>) -> Self {
        LexStop::NoMemory
    }
}
