//! What holds of the readings of texts.

ghost use Rattle.std.specs.Prelude.{◌≡◌, ℕ, List, [], ◌∷◌, codes, Result, Ok, Err};
ghost use Rattle.kh_types.specs.Code.{Code};
ghost use Rattle.gauss_code.specs.declared.stop.GaussStop.{GaussStop};
ghost use Rattle.gauss_code.specs.Reading.{IsGaussReading};

use crate::stop::GaussStop;

/// Each text has a reading, and two readings of a text are one: so every refusal comes exactly
/// where it says.
pub fn each_text_has_one_reading()
    ensures some { (text : List ℕ) → (reading : Result Code GaussStop) × IsGaussReading text reading }
    ensures one { (text : List ℕ) (a b : Result Code GaussStop) →
        IsGaussReading text a → IsGaussReading text b → a ≡ b }
{}

/// What some texts read as.
pub fn worked_texts()
    ensures trefoil { IsGaussReading (codes "GaussCode[-1, 3, -2, 1, -3, 2] Signs[-1, -1, -1]")
        (Ok (record {
          crossings = (1 ∷ 4 ∷ 2 ∷ 5 ∷ []) ∷ (3 ∷ 6 ∷ 4 ∷ 1 ∷ []) ∷ (5 ∷ 2 ∷ 6 ∷ 3 ∷ []) ∷ [];
          loops = 0;
        })) }
    ensures groups { IsGaussReading (codes "GaussCode[{-1,-2},{1,2},{}]\r\n\tSigns[1,-1]") (Ok (record {
      crossings = (1 ∷ 4 ∷ 2 ∷ 3 ∷ []) ∷ (2 ∷ 4 ∷ 1 ∷ 3 ∷ []) ∷ [];
      loops = 1;
    })) }
    ensures turned_labels { IsGaussReading (codes "GaussCode[{-1,-2},{2,1}]Signs[1,-1]") (Ok (record {
      crossings = (1 ∷ 4 ∷ 2 ∷ 3 ∷ []) ∷ (2 ∷ 4 ∷ 1 ∷ 3 ∷ []) ∷ [];
      loops = 0;
    })) }
    ensures empty { IsGaussReading (codes "GaussCode[]") (Ok (record { crossings = []; loops = 0 })) }
    ensures one_loop { IsGaussReading (codes "GaussCode[{}]") (Ok (record { crossings = []; loops = 1 })) }
    ensures nothing { IsGaussReading [] (Err (GaussStop.Text 0)) }
    ensures cut_off { IsGaussReading (codes "GaussCode[1, ") (Err (GaussStop.Text 13)) }
    ensures trailing { IsGaussReading (codes "GaussCode[1,]") (Err (GaussStop.Text 12)) }
    ensures number { IsGaussReading (codes "GaussCode]70000") (Err (GaussStop.Number 10)) }
    ensures byte_first { IsGaussReading (codes "? 70000") (Err (GaussStop.Text 0)) }
    ensures many_loops { IsGaussReading (codes "GaussCode[{},{},{},{},{},{},{},{},{}]")
        (Err (GaussStop.LoopLimit 9)) }
    ensures label { IsGaussReading (codes "GaussCode[1]") (Err (GaussStop.Label 10)) }
    ensures again { IsGaussReading (codes "GaussCode[{1},{1}]") (Err (GaussStop.Label 15)) }
    ensures no_signs { IsGaussReading (codes "GaussCode[{1,-1},{}]") (Err GaussStop.NoSigns) }
    ensures sign_count { IsGaussReading (codes "GaussCode[]Signs[1]") (Err (GaussStop.SignCount 1 0)) }
    ensures sign { IsGaussReading (codes "GaussCode[1,-1]Signs[ 2]") (Err (GaussStop.Label 22)) }
{}
