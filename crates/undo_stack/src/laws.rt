//! What holds of the definitions that the contracts cite, beyond any one call.

ghost use Rattle.std.specs.Prelude.{◌≡◌, ◌↔◌, ℕ, List, [], ◌∷◌, ◌++◌, codes, pos, neg_ℤ, replicate, Result, Ok, Err};
ghost use Rattle.undo_stack.specs.declared.schedule.ScheduleLine.{ScheduleLine};
ghost use Rattle.undo_stack.specs.declared.stop.ScriptStop.{ScriptStop};
ghost use Rattle.undo_stack.specs.Schedule.{IsSchedule};
ghost use Rattle.undo_stack.specs.ScheduleSteps.{schedule_of};

use crate::limits::SCRIPT_LINES;
use crate::schedule::ScheduleLine;
use crate::stop::ScriptStop;

/// The value of the limit, which the definitions name and do not write out.
pub fn limits_of_scripts()
    ensures lines { SCRIPT_LINES ≡ 4096 }
{}

/// Each text has a reading, which `schedule_of` computes, and no text has two.
pub fn each_text_has_one_reading()
    ensures reads { (text : List ℕ) (reading : Result (List (ℕ × ScheduleLine)) ScriptStop) →
        (schedule_of text ≡ reading) ↔ IsSchedule text reading }
    ensures one { (text : List ℕ) (a b : Result (List (ℕ × ScheduleLine)) ScriptStop) →
        IsSchedule text a → IsSchedule text b → a ≡ b }
{}

/// What some texts read as: all forms, lines without words, numbers at their bounds, and the
/// first wrong line.
pub fn worked_scripts()
    ensures two { schedule_of (codes "look 1 -2\nlook 2 -2\ncommit 1\ncommit 2\n") ≡ Ok (
        (1, ScheduleLine.Look 1 (neg_ℤ (pos 2))) ∷ (2, ScheduleLine.Look 2 (neg_ℤ (pos 2)))
        ∷ (3, ScheduleLine.Commit 1) ∷ (4, ScheduleLine.Commit 2) ∷ []) }
    ensures blank { schedule_of (codes "\n \t\r\n\rforget\t 64 ") ≡ Ok (
        (3, ScheduleLine.Forget 64) ∷ []) }
    ensures empty { schedule_of [] ≡ Ok [] }
    ensures digits { schedule_of (codes "look 01 -00\nlook 9 999") ≡ Ok (
        (1, ScheduleLine.Look 1 (pos 0)) ∷ (2, ScheduleLine.Look 9 (pos 999)) ∷ []) }
    ensures plus { schedule_of (codes "look 1 +1") ≡ Err (ScriptStop.Line 1) }
    ensures zero { schedule_of (codes "commit 1\n\ncommit 0") ≡ Err (ScriptStop.Line 3) }
    ensures above { schedule_of (codes "commit 65\ncommit 0") ≡ Err (ScriptStop.Line 1) }
    ensures long { schedule_of (codes "commit 064") ≡ Err (ScriptStop.Line 1) }
    ensures four { schedule_of (codes "look 1 1234") ≡ Err (ScriptStop.Line 1) }
    ensures minus { schedule_of (codes "look 1 -") ≡ Err (ScriptStop.Line 1) }
    ensures more { schedule_of (codes "commit 1 2") ≡ Err (ScriptStop.Line 1) }
    ensures no_feed { schedule_of (codes "commit 1\rcommit 2\n") ≡ Err (ScriptStop.Line 1) }
    ensures form_feed { schedule_of (codes "commit 1" ++ 12 ∷ []) ≡ Err (ScriptStop.Line 1) }
    ensures upper { schedule_of (codes "Commit 1") ≡ Err (ScriptStop.Line 1) }
    ensures limit { schedule_of (replicate 4097 10) ≡ Err (ScriptStop.LineLimit 4097) }
    ensures full { schedule_of (replicate 4096 10) ≡ Ok [] }
{}
