//! What holds of the definitions that the contracts cite, beyond any one call.

ghost use Rattle.std.specs.Prelude.{◌≡◌, ◌≤◌, ℕ, All, IsTrue, List, [], ◌++◌, codes, length, Result, Ok, Err};
ghost use Rattle.kh_types.specs.Acceptance.{accepted};
ghost use Rattle.kh_types.specs.Code.{Code};
ghost use Rattle.kh_types.specs.declared.limits.TheConstants.{CROSSINGS, LOOPS};
ghost use Rattle.prime_field.specs.Residues.{IsSmallPrime};
ghost use Rattle.circle_smoothing.specs.GeneratorCounts.{generator_count};
ghost use Rattle.circle_smoothing.specs.declared.limits.TheConstants.{GENERATORS};
ghost use Rattle.kh_types.specs.Table.{Table, table};
ghost use Rattle.kh_types.specs.WorkedCodes.{curl, one_loop};
ghost use Rattle.cancel_log.specs.Verdicts.{IsLog, IsVerdict};
ghost use Rattle.cancel_log.specs.declared.stop.LogStop.{LogStop};
ghost use Rattle.cancel_log.specs.declared.limits.TheConstants.{DEGREE_DIGITS, LOG_BYTES, PLACE_DIGITS};

use crate::cause::LogCause;
use crate::stop::LogStop;

/// The values of the limits, which the definitions name and do not write out.
pub fn limits()
    ensures bytes { LOG_BYTES ≡ 67108864 }
    ensures degrees { DEGREE_DIGITS ≡ 3 }
    ensures places { PLACE_DIGITS ≡ 7 }
{}

/// A log of a diagram over a field is verified, and its table is the diagram's.
pub fn logs_are_verified()
    ensures { (p : ℕ) (code : Code) (text : List ℕ) → IsLog p code text
        → IsVerdict text (Ok (table p code)) }
{}

/// Each accepted diagram within the limits has a log over each field, and one that is short enough
/// to be verified. That a diagram's crossings have four slots each is part of their type.
pub fn diagrams_have_logs()
    ensures { (p : ℕ) (code : Code) → IsSmallPrime p → IsTrue (accepted code)
        → All (λ slots. length slots ≡ 4) code.crossings
        → length code.crossings ≤ CROSSINGS → code.loops ≤ LOOPS
        → generator_count code ≤ GENERATORS
        → (text : List ℕ) × IsLog p code text × (length text ≤ LOG_BYTES) }
{}

/// Each text has exactly one verdict.
pub fn logs_have_one_verdict()
    ensures some { (text : List ℕ) → (verdict : Result Table LogStop) × IsVerdict text verdict }
    ensures one { (text : List ℕ) (first second : Result Table LogStop)
        → IsVerdict text first → IsVerdict text second → first ≡ second }
{}

/// What small texts come to: each cause, and logs that are verified.
pub fn worked_verdicts()
    // The first three lines.
    ensures nothing { IsVerdict [] (Err (LogStop.Line 1 LogCause.Text)) }
    ensures no_diagram { IsVerdict (codes "log 1\n") (Err (LogStop.Line 2 LogCause.Text)) }
    ensures unread { IsVerdict (codes "log 1\nPD[Loop[1]\nfield 4\n")
        (Err (LogStop.Line 2 LogCause.Diagram)) }
    ensures refused { IsVerdict (codes "log 1\nPD[X[1,2,1,2]]\nfield 4\n")
        (Err (LogStop.Line 2 LogCause.Diagram)) }
    ensures field { IsVerdict (codes "log 1\nPD[Loop[1]]\nfield 4\n")
        (Err (LogStop.Line 3 LogCause.Text)) }
    // The blocks of a loop, which have no entry.
    ensures unbegun { IsVerdict (codes "log 1\nPD[Loop[1]]\nfield 2\ncancel 0 0 0\n")
        (Err (LogStop.Line 4 LogCause.Text)) }
    ensures spelled { IsVerdict (codes "log 1\nPD[Loop[1]]\nfield 2\nblock -01\n")
        (Err (LogStop.Line 4 LogCause.Text)) }
    ensures signed { IsVerdict
        (codes "log 1\nPD[Loop[1]]\nfield 2\nblock -1\ncancel -0 0 0\n")
        (Err (LogStop.Line 5 LogCause.Text)) }
    ensures early { IsVerdict (codes "log 1\nPD[Loop[1]]\nfield 2\nblock -1")
        (Err (LogStop.Line 5 LogCause.Text)) }
    ensures block { IsVerdict (codes "log 1\nPD[Loop[1]]\nfield 2\nblock 1\n")
        (Err (LogStop.Line 4 LogCause.Block)) }
    ensures missing { IsVerdict (codes "log 1\nPD[Loop[1]]\nfield 2\nblock -1\ntable 2\n")
        (Err (LogStop.Line 5 LogCause.Block)) }
    ensures table { IsVerdict
        (codes "log 1\nPD[Loop[1]]\nfield 2\nblock -1\nblock 1\ntable 2\nfield 3\n")
        (Err (LogStop.Line 7 LogCause.Table)) }
    ensures cut_off { IsVerdict
        (codes "log 1\nPD[Loop[1]]\nfield 2\nblock -1\nblock 1\ntable 2\nfield 2\n")
        (Err (LogStop.Line 8 LogCause.Table)) }
    ensures looped { IsVerdict (codes "log 1\nPD[Loop[1]]\nfield 2\nblock -1\nblock 1\n"
        ++ codes "table 2\nfield 2\nj -1 i 0 dim 1\nj 1 i 0 dim 1") (Ok (table 2 one_loop)) }
    ensures longer { IsVerdict (codes "log 1\nPD[Loop[1]]\nfield 2\nblock -1\nblock 1\n"
        ++ codes "table 2\nfield 2\nj -1 i 0 dim 1\nj 1 i 0 dim 1\n\n")
        (Err (LogStop.Line 10 LogCause.Table)) }
    // The blocks of a curl, of which two have an entry.
    ensures open { IsVerdict
        (codes "log 1\nPD[X[1,1,2,2]]\nfield 2\nblock -1\nblock 1\nblock 3\n")
        (Err (LogStop.Line 6 LogCause.Open)) }
    ensures entry { IsVerdict
        (codes "log 1\nPD[X[1,1,2,2]]\nfield 2\nblock -1\nblock 1\ncancel 0 0 1\n")
        (Err (LogStop.Line 6 LogCause.Entry)) }
    ensures curled { IsVerdict (codes "log 1\nPD[X[1,1,2,2]]\nfield 2\nblock -1\n"
        ++ (codes "block 1\ncancel 0 0 0\nblock 3\ncancel 0 0 0\n"
        ++ codes "table 2\nfield 2\nj -1 i 0 dim 1\nj 1 i 0 dim 1\n")) (Ok (table 2 curl)) }
{}
