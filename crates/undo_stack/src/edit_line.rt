//! The lines of an edit, and their text.

ghost use Rattle.std.specs.Prelude.{◌≡◌, ◌≢◌, ◌≤◌, Err, IfOk, length};
ghost use Rattle.undo_stack.specs.EditScript.{IsEdit};
ghost use Rattle.undo_stack.specs.EditSteps.{edit_line_of};

use crate::command::Command;
use crate::edit_words::{lone_line, move_line};
use crate::limits::SCRIPT_LINES;
use crate::reader::read_script;
use crate::script::Script;
use crate::stop::ScriptStop;
use diagram_moves::Move;
use kh_types::INPUT_BYTES;
use std::alloc::Global;

/// What a line of an edit does.
#[derive(Clone, Copy, Debug, PartialEq, Eq)]
pub enum EditLine {
    /// `r1 add A under plus` and the like: a move is made.
    Change(Move),
    /// `undo`: the last change is taken back.
    Undo,
    /// `redo`: what was undone last is done again.
    Redo,
}

impl Command for EditLine {
    ghost meaning = { edit_line_of };

    fn of_words(words: &[&[u8]]) -> Option<Self> {
        match words {
            [name] => lone_line(name),
            [name, rest @ ..] => move_line(name, rest),
            [] => None,
        }
    }
}

/// Reads the text of an edit: lines of the forms `r1 add A under plus` (or `over`, or `minus`),
/// `r1 drop C`, `r2 add A left B right` (or other sides; A passes over), `r2 drop C D`, `r3 C D E`,
/// `undo` and `redo`, and lines without words, which do nothing.
pub fn read_edit(alloc: Global, text: &[u8]) -> Result<Script<EditLine>, ScriptStop>
    requires { length text.now ≤ INPUT_BYTES }
    ensures reads { result ≢ Err ScriptStop.NoMemory → IsEdit text.now result }
    ensures few { IfOk result (λ lines. length lines ≤ SCRIPT_LINES) }
{
    read_script(alloc, text)
}
