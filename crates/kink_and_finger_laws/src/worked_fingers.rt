//! Fingers on known diagrams.

ghost use Rattle.std.specs.Prelude.{◌≡◌, Some, None, [], ◌∷◌, true, false};
ghost use Rattle.kh_types.specs.declared.fault.CodeFault.TheVariants.{Checkerboard, Genus};
ghost use Rattle.kh_types.specs.WorkedCodes.{without_loops, slots_with, curl, two_curls, trefoil, over_circle};
ghost use Rattle.kh_types.specs.Acceptance.{first_fault, accepted, direction_fault, genus_fault};
ghost use Rattle.kh_types.specs.Directions.{plus_count, minus_count};
ghost use Rattle.kh_types.specs.StateSum.{state_sum, polynomial_text};
ghost use Rattle.kink_and_finger_laws.specs.FingerAdd.{with_finger, AreOfOneFace, AreOfTwoPieces};

/// A finger of the one half of a curl over the other, on the outer sides; across itself, where the
/// code has too few faces; between two pieces; of a circle of two arcs over its other half; and on
/// the trefoil.
pub fn known_fingers()
    ensures outside { with_finger curl 1 true 2 false
        ≡ without_loops (slots_with 3 1 4 6 ∷ slots_with 4 1 5 2 ∷ slots_with 5 3 6 2 ∷ []) }
    ensures outside_accepted { accepted (with_finger curl 1 true 2 false) ≡ true }
    ensures across { genus_fault (with_finger curl 1 true 2 true).crossings ≡ Some (Genus 3 5) }
    ensures across_first { first_fault (with_finger curl 1 true 2 true) ≡ Some (Checkerboard 4) }
    ensures across_directed { direction_fault (with_finger curl 1 true 2 true).crossings ≡ None }
    ensures between { accepted (with_finger two_curls 1 true 3 true) ≡ true }
    ensures between_other { accepted (with_finger two_curls 4 false 2 true) ≡ true }
    ensures circle { direction_fault (with_finger over_circle 4 true 3 true).crossings ≡ None }
    ensures three { first_fault (with_finger trefoil 1 true 3 true) ≡ None }
    ensures three_plus { plus_count (with_finger trefoil 1 true 3 true).crossings ≡ 1 }
    ensures three_minus { minus_count (with_finger trefoil 1 true 3 true).crossings ≡ 4 }
{}

/// The two sides of the first case are in one face; two curls that lie apart are two pieces.
pub fn known_sides()
    ensures one_face { AreOfOneFace curl.crossings 1 true 2 false }
    ensures two_pieces { AreOfTwoPieces two_curls.crossings 1 3 }
    ensures kept { polynomial_text (state_sum (with_finger curl 1 true 2 false))
        ≡ polynomial_text (state_sum curl) }
{}
