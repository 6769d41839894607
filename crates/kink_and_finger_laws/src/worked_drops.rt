//! The definitions on worked diagrams.

ghost use Rattle.std.specs.Prelude.{◌≡◌, ℕ, List, [], ◌∷◌, true, false};
ghost use Rattle.kh_types.specs.Acceptance.{accepted};
ghost use Rattle.kh_types.specs.WorkedCodes.{slots_with, curl, two_curls, over_circle, trefoil};
ghost use Rattle.kink_and_finger_laws.specs.Drops.{is_kink, is_bigon, without_kink, without_finger};
ghost use Rattle.kink_and_finger_laws.specs.KinkAdds.{with_kink};
ghost use Rattle.code_passes.specs.Parts.{slots_in};
ghost use Rattle.kink_and_finger_laws.specs.WorkedDrops.{curl_kinked, curl_fingered};

/// Worked drops.
pub fn worked_drops()
    ensures curl { without_kink curl 0 ≡ record { crossings = []; positive = []; loops = 1 } }
    ensures over_circle { without_finger over_circle 0 1
        ≡ record { crossings = []; positive = []; loops = 2 } }
    ensures over_bigon { is_bigon over_circle.crossings 0 1 ≡ true }
    ensures one_of_two { without_kink two_curls 0 ≡ record {
      crossings = slots_with 3 3 4 4
          ∷ [];
      positive = true ∷ [];
      loops = 1;
    } }
    ensures kinked { without_kink curl_kinked 1 ≡ record {
      crossings = slots_with 1 1 4 4
          ∷ [];
      positive = true ∷ [];
      loops = 0;
    } }
    ensures fingered { without_finger curl_fingered 0 1
        ≡ record { crossings = slots_with 3 3 1 1 ∷ []; positive = true ∷ []; loops = 0 } }
    ensures kink { is_kink (slots_in curl_kinked.crossings 1) ≡ true }
    ensures bigon { is_bigon curl_fingered.crossings 0 1 ≡ true }
    ensures no_bigon { is_bigon trefoil.crossings 0 1 ≡ false }
    ensures no_kink { is_kink (slots_in trefoil.crossings 0) ≡ false }
{}

/// Worked kinks.
pub fn worked_kinks()
    ensures first { with_kink false true 1 curl ≡ curl_kinked }
    ensures second { (with_kink false true 2 curl).crossings ≡ slots_with 1 1 2 4
        ∷ slots_with 2 4 3 3 ∷ [] }
    ensures accepted { accepted (with_kink false true 2 curl) ≡ true }
{}
