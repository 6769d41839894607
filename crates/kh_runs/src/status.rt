//! How a run ends.

ghost use Rattle.std.specs.Prelude.{◌≡◌};

/// How a run ended. Each status has a number, which is the program's exit status.
#[derive(Clone, Copy, Debug, PartialEq, Eq)]
pub enum Status {
    /// 0: the answer was written.
    Done,
    /// 1: the input is no code of an accepted diagram, a line of its script is no command or one of
    /// its log fails, or a mark is none.
    CodeRefused,
    /// 2: the words give no command.
    Usage,
    /// 3: the input could not be read. Nothing was written, or of a list what came before.
    ReadFault,
    /// 4: the answer could not be written whole, or its end not flushed.
    WriteFault,
    /// 5: the run was out of memory. Nothing was written, or of a list whole frames.
    NoMemory,
    /// 6: the input is larger than the program takes.
    Limit,
    /// 7: a script asks for a move, an undo or a redo that is refused.
    MoveRefused,
}

impl Status {
    ghost use Rattle.kh_runs.specs.Statuses.{status_number};

    /// The number of the status, 0 to 7.
    pub fn number(self) -> u8
        ensures { result ≡ status_number self }
    {
        self as u8
    }
}
