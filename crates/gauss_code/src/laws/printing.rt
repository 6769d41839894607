//! What is printed is read back.

ghost use Rattle.std.specs.Prelude.{◌≡◌, ◌≤◌, All, IsTrue, Ok, length};
ghost use Rattle.kh_types.specs.Code.{Code};
ghost use Rattle.kh_types.specs.Acceptance.{accepted};
ghost use Rattle.kh_lex.specs.Lines.{with_feed};
ghost use Rattle.gauss_code.specs.Printing.{gauss_text};
ghost use Rattle.gauss_code.specs.Reading.{IsGaussReading};

use kh_types::{CROSSINGS, LOOPS};

/// The text of an accepted code within the limits reads as the code, and so does a line of it. That
/// a diagram's crossings have four slots each is part of their type.
pub fn printed_codes_are_read_back()
    ensures text { (code : Code) → IsTrue (accepted code)
        → All (λ slots. length slots ≡ 4) code.crossings
        → length code.crossings ≤ CROSSINGS → code.loops ≤ LOOPS
        → IsGaussReading (gauss_text code) (Ok code) }
    ensures line { (code : Code) → IsTrue (accepted code)
        → All (λ slots. length slots ≡ 4) code.crossings
        → length code.crossings ≤ CROSSINGS → code.loops ≤ LOOPS
        → IsGaussReading (with_feed (gauss_text code)) (Ok code) }
{}
