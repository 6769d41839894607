//! The lines of a text, one after another.

ghost use Rattle.std.specs.Prelude.{◌≡◌, [], None, IfSome};
ghost use Rattle.cancel_log.specs.LinesLeft.{TakesLine, lines_left};

use kh_lex::line_at;
use std::marker::Model;

/// The lines of a text that are left to read. Contracts see them with the number of the first.
#[derive(Drop)]
pub(crate) struct Lines<'a> {
    text: &'a [u8],
    place: usize,
    number: usize,
}

impl<'a> Model for Lines<'a> {
    ghost use Rattle.cancel_log.specs.LinesLeft.{LinesLeft, IsAtLine, lines_left};

    ghost Value = { LinesLeft };

    ghost view = { λ lines. lines_left lines.number lines.place lines.text.now };

    ghost invariant = { λ lines. IsAtLine lines.text.now lines.place lines.number };
}

impl<'a> Lines<'a> {
    /// All lines of a text, the first of which has the number 1.
    pub(crate) fn of(text: &'a [u8]) -> Lines<'a>
        ensures { result ≡ lines_left 1 0 text.now }
    {
        Lines {
            text,
            place: 0,
            number: 1,
        }
    }

    /// The next line, which is then behind.
    #[tactic(auto, using(crate::proofs::LinesTaken::taken))]
    pub(crate) fn next(&mut self) -> Option<&'a [u8]>
        ensures some { IfSome result (λ line. TakesLine self.old line.now self.new) }
        ensures none { result ≡ None → (self.old.rest ≡ []) × (self.new ≡ self.old) }
    {
        if self.place >= self.text.len() {
            return None;
        }
        let line = line_at(self.text, self.place);
        self.place += line.len() + 1;
        self.number += 1;
        Some(line)
    }

    /// The number of the next line.
    pub(crate) fn number(&self) -> usize
        ensures { result ≡ self.now.number }
    {
        self.number
    }
}
