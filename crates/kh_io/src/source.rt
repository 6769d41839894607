//! Where bytes come from.

ghost use Rattle.std.specs.Prelude.{ℕ, List, ◌<◌, ◌≤◌, ◌+◌, length};
ghost use Rattle.std.specs.Io.{ReadsAtMost};
ghost use Rattle.std.specs.Io.KnownBytes.{ReadConsumes};
ghost use Rattle.std.specs.declared.option.Option.{Option};
ghost use Rattle.kh_io.specs.Faults.{HasCause};

/// A read or a write failed. The count of faults of its source or sink shows it.
#[derive(Clone, Copy, Debug, PartialEq, Eq)]
pub struct Failed;

/// Something that gives bytes, piece by piece, until its end.
pub trait Source {
    /// The bytes still to come, where they are known.
    ghost left: { Self → Option (List ℕ) };

    /// How often reading has failed. It never falls, and stays at the last value of u64.
    ghost faults: { Self → ℕ };

    /// A count that a read raises by one at most. A source that counts its reads tells how many
    /// there were; another keeps it at 0.
    ghost reads: { Self → ℕ };

    /// Puts bytes at the start of the buffer and answers how many, 0 only at the end.
    /// A read that failed has taken nothing.
    fn read(&mut self, buffer: &mut [u8]) -> Result<usize, Failed>
        requires { 0 < length buffer.old }
        ensures bound { ReadsAtMost result buffer.new }
        ensures bytes { ReadConsumes (left self.old) (left self.new) result buffer.new }
        ensures cause { HasCause (faults self.old) (faults self.new) result }
        ensures reads { reads self.new ≤ reads self.old + 1 };
}
