//! What holds of the definitions that the contracts cite, beyond any one call.

ghost use Rattle.std.specs.Prelude.{◌≡◌, ◌≤◌, ℕ, All, IsTrue, List, [], ◌∷◌, codes, length, Result, Ok, Err};
ghost use Rattle.kh_types.specs.Acceptance.{accepted};
ghost use Rattle.kh_types.specs.Code.{Code};
ghost use Rattle.kh_lex.specs.Lines.{with_feed};
ghost use Rattle.pd_code.specs.declared.stop.PdStop.{PdStop};
ghost use Rattle.pd_code.specs.Printing.{HasFourSlots, pd_text};
ghost use Rattle.pd_code.specs.Reading.{IsPdReading};

use crate::stop::PdStop;
use kh_types::{CROSSINGS, LOOPS};

/// Each text has a reading, and two readings of a text are one: so every refusal comes exactly
/// where it says.
pub fn each_text_has_one_reading()
    ensures some { (text : List ℕ) → (reading : Result Code PdStop) × IsPdReading text reading }
    ensures one { (text : List ℕ) (a b : Result Code PdStop) →
        IsPdReading text a → IsPdReading text b → a ≡ b }
{}

/// The text of a code within the limits reads as the code, and so does a line of it. That a
/// diagram's crossings have four slots each is part of their type; those of an accepted code then
/// hold bytes.
pub fn printed_codes_are_read_back()
    ensures text { (code : Code) → All HasFourSlots code.crossings →
        length code.crossings ≤ CROSSINGS → code.loops ≤ LOOPS →
        IsPdReading (pd_text code) (Ok code) }
    ensures line { (code : Code) → All HasFourSlots code.crossings →
        length code.crossings ≤ CROSSINGS → code.loops ≤ LOOPS →
        IsPdReading (with_feed (pd_text code)) (Ok code) }
    ensures accepted { (code : Code) → IsTrue (accepted code) → length code.crossings ≤ CROSSINGS →
        All (λ slots. length slots ≡ 4) code.crossings → All HasFourSlots code.crossings }
{}

/// What some texts read as, and how some codes are printed.
pub fn worked_texts()
    ensures trefoil { IsPdReading (codes "PD[X[1,4,2,5],X[3,6,4,1],\r\n\tX[5,2,6,3]]") (Ok (record {
      crossings = (1 ∷ 4 ∷ 2 ∷ 5 ∷ []) ∷ (3 ∷ 6 ∷ 4 ∷ 1 ∷ []) ∷ (5 ∷ 2 ∷ 6 ∷ 3 ∷ []) ∷ [];
      loops = 0;
    })) }
    ensures loops { IsPdReading (codes "PD[Loop[1], Loop[-1]]")
        (Ok (record { crossings = []; loops = 2 })) }
    ensures no_arc { IsPdReading (codes "PD[X[1,-1,2,257]]")
        (Ok (record { crossings = (1 ∷ 0 ∷ 2 ∷ 0 ∷ []) ∷ []; loops = 0 })) }
    ensures nothing { IsPdReading [] (Err (PdStop.Text 0)) }
    ensures cut_off { IsPdReading (codes "PD[X[1,4,2,5], X[3,6") (Err (PdStop.Text 20)) }
    ensures early { IsPdReading (codes "PD[Loop[1] Loop[2]]") (Err (PdStop.Text 11)) }
    ensures number { IsPdReading (codes "PD]70000") (Err (PdStop.Number 3)) }
    ensures byte_first { IsPdReading (codes "? 70000") (Err (PdStop.Text 0)) }
    ensures number_first { IsPdReading (codes "70000 ?") (Err (PdStop.Number 0)) }
    ensures printed { pd_text (record {
      crossings = (2 ∷ 1 ∷ 3 ∷ 4 ∷ []) ∷ (4 ∷ 3 ∷ 1 ∷ 2 ∷ []) ∷ [];
      loops = 2;
    }) ≡ codes "PD[X[2, 1, 3, 4], X[4, 3, 1, 2], Loop[5], Loop[6]]" }
    ensures printed_empty { pd_text (record { crossings = []; loops = 0 }) ≡ codes "PD[]" }
{}
