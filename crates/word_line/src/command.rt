//! Commands, and why words give none.

use prime_field::FieldSize;
use std::alloc::AllocError;

/// What a command is to do.
#[derive(Clone, Copy, Debug, PartialEq, Eq)]
pub enum Task {
    /// Write the homology table, and the Jones polynomial.
    Homology,
    /// Write the unnormalised Jones polynomial.
    Jones,
    /// Write how many crossings, components and faces the diagram has.
    Check,
    /// Write the diagram in another form.
    Convert,
    /// Make moves of the diagram as a script says, and take them back; write the diagram after each
    /// line.
    Edit,
    /// Write a drawing of the diagram, slice by slice.
    Draw,
    /// Let workers look and commit as a script says; write the answers, and the homology table.
    Schedule,
    /// Write the counts, the dimension and the Jones polynomial of the closed braid of a number.
    Bench,
    /// Write a log of cancellations, which proves the homology table to whoever replays it.
    Certify,
    /// Replay a log of cancellations; write the homology table that it proves, or the first line
    /// that fails.
    Verify,
    /// Write the table of reduced homology at a marked arc or loop, and the Jones polynomial.
    Reduced,
    /// Write the mirror image of the diagram.
    Mirror,
    /// Write the diagram with every component turned.
    Reverse,
    /// Write the disjoint union of two diagrams.
    Union,
}

/// A form of codes as text.
#[derive(Clone, Copy, Debug, PartialEq, Eq)]
pub enum Form {
    /// A planar diagram text (Knot Atlas, "Planar Diagrams").
    Pd,
    /// A signed Gauss text (Knot Atlas, "Gauss Codes").
    Gauss,
}

/// A task with what it needs.
#[derive(Clone, Copy, Debug, PartialEq, Eq)]
pub struct Command {
    /// What to do.
    pub task: Task,
    /// The number of elements of the field over which homology is taken.
    pub field: FieldSize,
    /// How many workers make the homology table, from 1 to `WORKERS`.
    pub workers: u32,
    /// The form in which `convert` writes.
    pub to: Form,
    /// The number whose diagram `bench` takes.
    pub number: Option<u32>,
    /// The arc or the loop that `reduced` marks.
    pub mark: Option<u8>,
}

/// Why words give no command.
#[derive(Clone, Copy, Debug, PartialEq, Eq)]
pub enum WordStop {
    /// The words mean none.
    Usage,
    /// Memory ran out.
    NoMemory,
}

impl From<AllocError> for WordStop {
    ghost use Rattle.std.specs.Prelude.{◌≡◌};
    ghost use Rattle.word_line.specs.declared.command.WordStop.TheVariants.{NoMemory};

    ghost from_gives = { λ _ stop. stop ≡ NoMemory };

    fn from(_: AllocError) -> Self {
        WordStop::NoMemory
    }
}
