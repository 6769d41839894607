//! What holds of the reading of edits, beyond any one call.

ghost use Rattle.std.specs.Prelude.{◌≡◌, ◌↔◌, ℕ, List, [], ◌∷◌, ◌++◌, codes, true, false, replicate, Result, Ok, Err};
ghost use Rattle.diagram_moves.specs.declared.change.Move.TheVariants.{FingerAdd, FingerDrop, KinkAdd, KinkDrop, Slide};
ghost use Rattle.diagram_moves.specs.declared.change.Side.TheVariants.{Left, Right};
ghost use Rattle.undo_stack.specs.declared.edit_line.EditLine.{EditLine};
ghost use Rattle.undo_stack.specs.declared.edit_line.EditLine.TheVariants.{Change, Redo, Undo};
ghost use Rattle.undo_stack.specs.declared.stop.ScriptStop.{ScriptStop};
ghost use Rattle.undo_stack.specs.EditScript.{IsEdit};
ghost use Rattle.undo_stack.specs.EditSteps.{edit_of};

use crate::edit_line::EditLine;
use crate::limits::{NAMED_DIGITS, NAMED_LIMIT};
use crate::stop::ScriptStop;

/// The values of the limits, which the definitions name and do not write out.
pub fn limits_of_edits()
    ensures digits { NAMED_DIGITS ≡ 3 }
    ensures named { NAMED_LIMIT ≡ 255 }
{}

/// Each text has a reading, which `edit_of` computes, and no text has two.
pub fn each_edit_has_one_reading()
    ensures reads { (text : List ℕ) (reading : Result (List (ℕ × EditLine)) ScriptStop) →
        (edit_of text ≡ reading) ↔ IsEdit text reading }
    ensures one { (text : List ℕ) (a b : Result (List (ℕ × EditLine)) ScriptStop) →
        IsEdit text a → IsEdit text b → a ≡ b }
{}

/// What some texts read as: all forms, lines without words, numbers at their bounds, and the
/// first wrong line.
pub fn worked_edits()
    ensures kinks { edit_of (codes "r1 add 1 under plus\nr1 add 2 over minus\nr1 drop 3\n") ≡ Ok (
        (1, Change (KinkAdd 1 true true)) ∷ (2, Change (KinkAdd 2 false false))
        ∷ (3, Change (KinkDrop 3)) ∷ []) }
    ensures fingers { edit_of (codes "r2 add 1 left 2 right\nr2 add 3 right 4 left\nr2 drop 5 6")
        ≡ Ok ((1, Change (FingerAdd 1 Left 2 Right)) ∷ (2, Change (FingerAdd 3 Right 4 Left))
        ∷ (3, Change (FingerDrop 5 6)) ∷ []) }
    ensures slide { edit_of (codes "r3 1 2 3") ≡ Ok ((1, Change (Slide 1 2 3)) ∷ []) }
    ensures named_drop { edit_of (codes "r3 drop 2 3") ≡ Err (ScriptStop.Line 1) }
    ensures blank { edit_of (codes "\n \t\r\n\rundo\t \r\n\nredo ") ≡ Ok (
        (3, Undo) ∷ (5, Redo) ∷ []) }
    ensures empty { edit_of [] ≡ Ok [] }
    ensures digits { edit_of (codes "r1 drop 0\nr1 drop 255\nr1 drop 007") ≡ Ok (
        (1, Change (KinkDrop 0)) ∷ (2, Change (KinkDrop 255)) ∷ (3, Change (KinkDrop 7)) ∷ []) }
    ensures above { edit_of (codes "undo\n\nr1 drop 256\nredo 1") ≡ Err (ScriptStop.Line 3) }
    ensures long { edit_of (codes "r1 drop 0255") ≡ Err (ScriptStop.Line 1) }
    ensures minus { edit_of (codes "r1 drop -1") ≡ Err (ScriptStop.Line 1) }
    ensures side { edit_of (codes "r2 add 1 under 2 right") ≡ Err (ScriptStop.Line 1) }
    ensures order { edit_of (codes "r1 add 1 plus under") ≡ Err (ScriptStop.Line 1) }
    ensures more { edit_of (codes "undo undo") ≡ Err (ScriptStop.Line 1) }
    ensures upper { edit_of (codes "R3 1 2 3") ≡ Err (ScriptStop.Line 1) }
    ensures limit { edit_of (replicate 4097 10) ≡ Err (ScriptStop.LineLimit 4097) }
    ensures full { edit_of (replicate 4096 10) ≡ Ok [] }
{}
