//! What holds of the undo machine, beyond any one call.

ghost use Rattle.std.specs.Prelude.{◌≡◌, ◌+◌, ◌-◌, ◌≤◌, List, [], ◌∷◌, length, Some, IsTrue};
ghost use Rattle.kh_types.specs.Code.{Code};
ghost use Rattle.kh_types.specs.Acceptance.{accepted};
ghost use Rattle.circular_buffer.specs.Buffer.{keep_last};
ghost use Rattle.undo_stack.specs.Sums.{HasSumOf};
ghost use Rattle.undo_stack.specs.declared.edit_line.EditLine.{EditLine};
ghost use Rattle.undo_stack.specs.declared.limits.TheConstants.{UNDO_DEPTH};
ghost use Rattle.undo_stack.specs.EditRuns.{edited};
ghost use Rattle.undo_stack.specs.Histories.{EachOf, History, changed, history_of, opening_history, redone, undone};

use crate::limits::UNDO_DEPTH;

/// The value of the limit, which the definitions name and do not write out.
pub fn limits_of_histories()
    ensures depth { UNDO_DEPTH ≡ 256 }
{}

/// What undo takes back redo does again, exactly, and the other way round; an undo after a change
/// gives the diagram before it.
pub fn undo_and_redo_are_inverse()
    ensures again { (a b : History) → undone a ≡ Some b → redone b ≡ Some a }
    ensures back { (a b : History) → redone a ≡ Some b → undone b ≡ Some a }
    ensures before { (a : History) (diagram : Code) →
        undone (changed diagram a) ≡ Some (history_of (keep_last (UNDO_DEPTH - 1) a.past) a.diagram
        (diagram ∷ [])) }
{}

/// After any lines, past and future together have no more than 256 diagrams.
pub fn histories_are_bounded()
    ensures { (lines : List EditLine) (diagram : Code) →
        length (edited lines (opening_history diagram)).history.past
        + length (edited lines (opening_history diagram)).history.future ≤ UNDO_DEPTH }
{}

/// After any lines on an accepted code, all diagrams of past, present and future are accepted and
/// have the first one's state sum.
pub fn histories_keep_state_sums()
    ensures { (lines : List EditLine) (code : Code) → IsTrue (accepted code) →
        EachOf (HasSumOf code) (edited lines (opening_history code)).history }
{}
