//! What holds of the definitions that the contract cites, beyond any one call.

ghost use Rattle.std.specs.Prelude.{◌≡◌, ◌↔◌, ℕ, List, [], ◌∷◌, codes, Result, Ok, Err, Some};
ghost use Rattle.kh_types.specs.Code.{Code};
ghost use Rattle.json_code.specs.declared.stop.JsonStop.{JsonStop};
ghost use Rattle.json_code.specs.Reading.{IsJsonReading};
ghost use Rattle.json_code.specs.Steps.{number_of_value, json_reading_of};
ghost use Rattle.json_code.specs.Values.{whole_number};
ghost use Rattle.serde_json.specs.Data.{Data};

use crate::stop::JsonStop;

/// Each text has a reading, and no text has two.
pub fn each_text_has_one_reading()
    ensures some { (text : List ℕ) → IsJsonReading text (json_reading_of text) }
    ensures one { (text : List ℕ) (a b : Result Code JsonStop) →
        IsJsonReading text a → IsJsonReading text b → a ≡ b }
{}

/// `as_u64` gives a number for that whole number alone, so it gives none for any value that is no
/// whole number.
pub fn as_u64_gives_whole_numbers()
    ensures { (value : Data) (n : ℕ) → (number_of_value value ≡ Some n) ↔ (value ≡ whole_number n) }
{}

/// What some texts read as: the trefoil, no crossing, large numbers, wrong slots, too many
/// elements, no array, no JSON.
pub fn worked_texts()
    ensures trefoil { json_reading_of (codes "[[1,4,2,5], [3,6,4,1], [5,2,6,3]]") ≡ Ok (record {
      crossings = (1 ∷ 4 ∷ 2 ∷ 5 ∷ []) ∷ (3 ∷ 6 ∷ 4 ∷ 1 ∷ []) ∷ (5 ∷ 2 ∷ 6 ∷ 3 ∷ []) ∷ [];
      loops = 0;
    }) }
    ensures empty { json_reading_of (codes "[]") ≡ Ok (record { crossings = []; loops = 0 }) }
    ensures no_arc { json_reading_of (codes "[[255,256,257,18446744073709551615]]")
        ≡ Ok (record { crossings = (255 ∷ 0 ∷ 0 ∷ 0 ∷ []) ∷ []; loops = 0 }) }
    ensures missing { json_reading_of (codes "[[1,1,2,2],[3,3,4]]") ≡ Err (JsonStop.Shape 2 3) }
    ensures no_number { json_reading_of (codes "[[1,-1,2,2,3]]") ≡ Err (JsonStop.Shape 1 1) }
    ensures fifth { json_reading_of (codes "[[1,1,2,2,3]]") ≡ Err (JsonStop.Shape 1 4) }
    ensures no_crossing { json_reading_of (codes "[0,[1,1,2,2]]") ≡ Err (JsonStop.Shape 1 0) }
    ensures too_many { json_reading_of (codes "[0,0,0,0,0,0,0,0,0,0,0,0,0,0,0,0,0,0,0,0,0]")
        ≡ Err (JsonStop.CrossingLimit 21) }
    ensures no_array { json_reading_of (codes "7") ≡ Err (JsonStop.Shape 0 0) }
    ensures cut_off { json_reading_of (codes "[[1,1,2,2]") ≡ Err JsonStop.JsonText }
    ensures nothing { json_reading_of [] ≡ Err JsonStop.JsonText }
{}
