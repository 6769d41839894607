//! What answers the code of a line.

ghost use Rattle.std.specs.Prelude.{◌≤◌, ℕ, List, length, IfOk};
ghost use Rattle.kh_types.specs.declared.limits.TheConstants.{INPUT_BYTES};
ghost use Rattle.kh_runs.specs.Replies.{Reply};

use kh_runs::Reply;
use kh_types::NoMemory;
use prime_field::FieldSize;
use std::alloc::Global;

/// Something that answers the bytes of an input over a field.
pub trait Answering {
    /// The replies over the field of so many elements to the bytes of an input, if they are no more
    /// than a code may have.
    ghost answers: { Self → ℕ → List ℕ → Reply → Type 0 };

    /// A reply to bytes that are no more than a code may have.
    fn reply(&self, alloc: Global, field: FieldSize, bytes: &[u8]) -> Result<Reply, NoMemory>
        requires { length bytes.now ≤ INPUT_BYTES }
        ensures { IfOk result (answers self.now field bytes.now) };
}
