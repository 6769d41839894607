//! Why no table was read.

ghost use Rattle.std.specs.Prelude.{◌≡◌};
ghost use Rattle.table_text.specs.declared.stop.TableStop.TheVariants.{NoMemory};

use kh_types as types;
use std::alloc::AllocFailed;

/// Why no table was read from a text.
#[derive(Clone, Copy, Debug, PartialEq, Eq)]
pub enum TableStop {
    /// The first wrong line of the text begins at `place`, that of a byte, counted from 0. A last
    /// line without its line feed is wrong, and so is the first line of the empty text.
    Text { place: u32 },
    /// Out of memory, whatever the text is.
    NoMemory,
}

impl From<types::NoMemory> for TableStop {
    ghost from_gives = { λ _ stop. stop ≡ NoMemory };

    fn from(_: types::NoMemory) -> Self {
        TableStop::NoMemory
    }
}

impl<T: Drop> From<AllocFailed<T>> for TableStop {
    ghost from_gives = { λ _ stop. stop ≡ NoMemory };

    fn from(_: AllocFailed<T>) -> Self {
        TableStop::NoMemory
    }
}
