//! Why no script was read.

ghost use Rattle.std.specs.Prelude.{◌≡◌};
ghost use Rattle.undo_stack.specs.declared.stop.ScriptStop.TheVariants.{NoMemory};

use kh_types as types;
use std::alloc::AllocFailed;

/// Why no script was read from a text. Lines are counted from 1.
#[derive(Clone, Copy, Debug, PartialEq, Eq)]
pub enum ScriptStop {
    /// The text has `count` lines, and these are more than `SCRIPT_LINES`. It comes before a line
    /// that is wrong.
    LineLimit { count: u32 },
    /// The first line that has words and is no command.
    Line { line: u32 },
    /// Memory ran out, whatever the text is.
    NoMemory,
}

impl From<types::NoMemory> for ScriptStop {
    ghost from_gives = { λ _ stop. stop ≡ NoMemory };

    fn from(_: types::NoMemory) -> Self {
        ScriptStop::NoMemory
    }
}

impl<T: Drop> From<AllocFailed<T>> for ScriptStop {
    ghost from_gives = { λ _ stop. stop ≡ NoMemory };

    fn from(_: AllocFailed<T>) -> Self {
        ScriptStop::NoMemory
    }
}
