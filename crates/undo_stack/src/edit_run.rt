//! The lines of an edit, carried out.

ghost use Rattle.std.specs.Prelude.{◌≡◌, Ok, Err, IfOk, IfErr};
ghost use Rattle.undo_stack.specs.EditRuns.{after_line};

use crate::edit_line::EditLine;
use crate::editor::Editor;
use diagram_moves::MoveFault;

/// Why a line of an edit is refused.
#[derive(Clone, Copy, Debug, PartialEq, Eq)]
pub enum EditFault {
    /// The move is refused.
    Change(MoveFault),
    /// There is no past.
    NothingToUndo,
    /// There is no future.
    NothingToRedo,
}

/// Carries out a line. Where it is refused, nothing changes.
pub fn carry_out(editor: &mut Editor, line: EditLine) -> Result<(), EditFault>
    ensures done { IfOk result (λ _. after_line line editor.old ≡ Ok editor.new) }
    ensures refused { IfErr result (λ fault. after_line line editor.old ≡ Err fault) }
    ensures kept { IfErr result (λ _. editor.new ≡ editor.old) }
{
    match line {
        EditLine::Change(change) => match editor.do_move(change) {
            Ok(()) => Ok(()),
            Err(fault) => Err(EditFault::Change(fault)),
        },
        EditLine::Undo => match editor.undo() {
            Ok(()) => Ok(()),
            Err(_) => Err(EditFault::NothingToUndo),
        },
        EditLine::Redo => match editor.redo() {
            Ok(()) => Ok(()),
            Err(_) => Err(EditFault::NothingToRedo),
        },
    }
}
