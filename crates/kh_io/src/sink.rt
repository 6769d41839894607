//! Where bytes go to.

ghost use Rattle.std.specs.Prelude.{ℕ, List, ◌<◌, length, take, IfOk};
ghost use Rattle.std.specs.Io.{WritesAtMost};
ghost use Rattle.std.specs.Io.KnownBytes.{Appends};
ghost use Rattle.std.specs.declared.option.Option.{Option};
ghost use Rattle.kh_io.specs.Faults.{HasCause};
ghost use Rattle.kh_io.specs.Prefixes.{AppendsPrefix};

use crate::source::Failed;

/// Something that takes bytes, piece by piece.
pub trait Sink {
    /// The bytes written so far, where they are known.
    ghost written: { Self → Option (List ℕ) };

    /// How often writing has failed. It never falls, and stays at the last value of u64.
    ghost faults: { Self → ℕ };

    /// Takes a prefix of the piece and answers how many bytes it has, at least one.
    /// A write that failed has taken a prefix of the piece too, which may have none of its bytes or
    /// all, and nothing else, where what is written is known.
    fn write(&mut self, piece: &[u8]) -> Result<usize, Failed>
        requires { 0 < length piece.now }
        ensures some { IfOk result (λ count. 0 < count) }
        ensures bound { WritesAtMost result piece.now }
        ensures taken { IfOk result (λ count.
            Appends (written self.old) (written self.new) (take count piece.now)) }
        ensures prefix { AppendsPrefix (written self.old) (written self.new) piece.now }
        ensures cause { HasCause (faults self.old) (faults self.new) result };
}
