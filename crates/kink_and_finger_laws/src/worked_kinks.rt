//! Kinks on known diagrams.

ghost use Rattle.std.specs.Prelude.{◌≡◌, [], ◌∷◌, true, false};
ghost use Rattle.kh_types.specs.WorkedCodes.{without_loops, slots_with, curl, trefoil, over_circle};
ghost use Rattle.kh_types.specs.Acceptance.{accepted};
ghost use Rattle.kh_types.specs.Directions.{is_positive, plus_count, minus_count};
ghost use Rattle.kh_types.specs.Faces.{face_count};
ghost use Rattle.kh_types.specs.StateSum.{state_sum, polynomial_text};
ghost use Rattle.kink_and_finger_laws.specs.KinkAdds.{with_kink};

/// The four kinks on an arc of a curl, kinks on a circle that lies over another, and on the
/// trefoil.
pub fn known_kinks()
    ensures under_plus { with_kink false true 1 curl ≡ without_loops (slots_with 3 1 4 4
        ∷ slots_with 1 3 2 2 ∷ []) }
    ensures under_minus { with_kink false false 1 curl ≡ without_loops (slots_with 3 1 4 4
        ∷ slots_with 1 2 2 3 ∷ []) }
    ensures over_plus { with_kink true true 1 curl ≡ without_loops (slots_with 3 1 4 4
        ∷ slots_with 2 2 3 1 ∷ []) }
    ensures over_minus { with_kink true false 1 curl ≡ without_loops (slots_with 3 1 4 4
        ∷ slots_with 2 1 3 2 ∷ []) }
    ensures under_plus_accepted { accepted (with_kink false true 1 curl) ≡ true }
    ensures over_minus_accepted { accepted (with_kink true false 2 curl) ≡ true }
    ensures circle_accepted { accepted (with_kink true true 4 over_circle) ≡ true }
    ensures circle_first { is_positive (with_kink true true 4 over_circle).crossings 1
        ≡ is_positive over_circle.crossings 1 }
    ensures three_plus { plus_count (with_kink false true 6 trefoil).crossings ≡ 1 }
    ensures three_minus { minus_count (with_kink false true 6 trefoil).crossings ≡ 3 }
    ensures three_faces { face_count (with_kink false true 6 trefoil).crossings ≡ 6 }
    ensures kept { polynomial_text (state_sum (with_kink true false 1 curl))
        ≡ polynomial_text (state_sum curl) }
{}
