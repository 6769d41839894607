//! What is kept of a line while it comes.

ghost use Rattle.std.specs.Prelude.{◌≡◌, ℕ, List, [], ◌∷◌, ◌++◌, IfOk};
ghost use Rattle.line_reader.specs.Lines.{kept};

use kh_lex::is_blank;
use kh_types::{INPUT_BYTES, NoMemory};
use std::alloc::Global;
use std::marker::Model;

/// What is kept of a line: its bytes, of a line that is longer than a code may be no more than show
/// this, and whether one of all its bytes is no blank. Contracts see it as a `Kept`.
#[derive(Drop)]
pub struct Line {
    bytes: Vec<u8>,
    has_code: bool,
}

impl Model for Line {
    ghost use Rattle.line_reader.specs.Lines.{Kept};

    ghost Value = { Kept };

    ghost use Rattle.line_reader.specs.Lines.{kept_inside};

    ghost view = { kept_inside };
}

impl Line {
    /// An empty line.
    pub fn new(alloc: Global) -> Line
        ensures { result ≡ kept [] }
    {
        Line {
            bytes: Vec::new(alloc),
            has_code: false,
        }
    }

    /// The line has one byte more.
    pub fn push(&mut self, byte: u8) -> Result<(), NoMemory>
        ensures { IfOk result (λ _. (line : List ℕ) → self.old ≡ kept line
            → self.new ≡ kept (line ++ byte ∷ [])) }
    {
        self.has_code |= !is_blank(byte);
        if self.bytes.len() <= INPUT_BYTES {
            self.bytes.push(byte)?;
        }
        Ok(())
    }

    /// The bytes of the line, or the first of them and one more than a code may have.
    pub fn bytes(&self) -> &[u8]
        ensures { result.now ≡ self.now.bytes }
    {
        self.bytes.as_slice()
    }

    /// Whether one of the bytes of the line is no blank.
    pub fn has_code(&self) -> bool
        ensures { result ≡ self.now.has_code }
    {
        self.has_code
    }
}
