//! Slides of worked diagrams.

ghost use Rattle.std.specs.Prelude.{◌≡◌, ◌∷◌, [], Some, None, true, false};
ghost use Rattle.kh_types.specs.WorkedCodes.{without_loops, slots_with, trefoil};
ghost use Rattle.kh_types.specs.Acceptance.{accepted};
ghost use Rattle.slide_laws.specs.Triangles.{slide_slot, has_triangle, step};
ghost use Rattle.slide_laws.specs.Slid.{slid};

/// Five slides, of which four are at triangles with outer arcs that are one, and the trefoil, whose
/// triangles are alternating.
pub fn worked_slides()
    // Three kinks: each crossing's two outer ends are one arc.
    ensures kinks_accepted { accepted (without_loops (slots_with 6 2 1 1 ∷ slots_with 5 4 6 5
        ∷ slots_with 2 4 3 3 ∷ [])) ≡ true }
    ensures kinks_slot { slide_slot (slots_with 6 2 1 1 ∷ slots_with 5 4 6 5
        ∷ slots_with 2 4 3 3 ∷ []) 1 2 3 ≡ Some 0 }
    ensures kinks { slid (slots_with 6 2 1 1 ∷ slots_with 5 4 6 5 ∷ slots_with 2 4 3 3 ∷ []) 0 5 8
        ≡ slots_with 5 3 6 2 ∷ slots_with 6 3 1 4 ∷ slots_with 1 5 2 4 ∷ [] }
    // A component of two arcs that is over at both its crossings.
    ensures over_accepted { accepted (without_loops (slots_with 4 2 1 1 ∷ slots_with 3 6 4 5
        ∷ slots_with 2 6 3 5 ∷ [])) ≡ true }
    ensures over_slot { slide_slot (slots_with 4 2 1 1 ∷ slots_with 3 6 4 5 ∷ slots_with 2 6 3 5
        ∷ []) 1 2 3 ≡ Some 0 }
    ensures over { slid (slots_with 4 2 1 1 ∷ slots_with 3 6 4 5 ∷ slots_with 2 6 3 5 ∷ []) 0 5 8
        ≡ slots_with 3 3 4 2 ∷ slots_with 4 5 1 6 ∷ slots_with 1 5 2 6 ∷ [] }
    // Four crossings, of which the triangle has the first, the second and the fourth.
    ensures four_accepted { accepted (without_loops (slots_with 6 8 1 7 ∷ slots_with 1 2 2 3
        ∷ slots_with 5 5 6 4 ∷ slots_with 3 8 4 7 ∷ []))
        ≡ true }
    ensures four_slot { slide_slot (slots_with 6 8 1 7 ∷ slots_with 1 2 2 3 ∷ slots_with 5 5 6 4
        ∷ slots_with 3 8 4 7 ∷ []) 1 2 4 ≡ Some 2 }
    ensures four { slid (slots_with 6 8 1 7 ∷ slots_with 1 2 2 3 ∷ slots_with 5 5 6 4
        ∷ slots_with 3 8 4 7 ∷ []) 2 7 15
        ≡ slots_with 1 7 2 8 ∷ slots_with 6 3 1 4 ∷ slots_with 5 5 6 4 ∷ slots_with 2 7 3 8 ∷ [] }
    // A Hopf link with a kink; and a triangle under a circle that lies over, before the circle's
    // two arcs, 5 and 6, exchange their numbers.
    ensures hopf_accepted { accepted (without_loops (slots_with 5 2 6 1 ∷ slots_with 3 3 4 2
        ∷ slots_with 4 5 1 6 ∷ [])) ≡ true }
    ensures hopf_slot { slide_slot (slots_with 5 2 6 1 ∷ slots_with 3 3 4 2 ∷ slots_with 4 5 1 6
        ∷ []) 1 2 3 ≡ Some 1 }
    ensures hopf { slid (slots_with 5 2 6 1 ∷ slots_with 3 3 4 2 ∷ slots_with 4 5 1 6 ∷ []) 1 6 11
        ≡ slots_with 6 3 5 2 ∷ slots_with 4 2 1 1 ∷ slots_with 3 6 4 5 ∷ [] }
    ensures circle_accepted { accepted (without_loops (slots_with 1 6 2 5 ∷ slots_with 4 6 1 5
        ∷ slots_with 2 4 3 3 ∷ [])) ≡ true }
    ensures circle_slot { slide_slot (slots_with 1 6 2 5 ∷ slots_with 4 6 1 5
        ∷ slots_with 2 4 3 3 ∷ []) 1 2 3 ≡ Some 1 }
    ensures circle { slid (slots_with 1 6 2 5 ∷ slots_with 4 6 1 5 ∷ slots_with 2 4 3 3 ∷ []) 1 4 8
        ≡ slots_with 2 5 3 6 ∷ slots_with 3 5 4 6 ∷ slots_with 1 1 2 4 ∷ [] }
    // The trefoil has two triangles, and each has slots of one parity.
    ensures alternating { has_triangle trefoil.crossings 1 2 3 ≡ true }
    ensures alternating_slot { slide_slot trefoil.crossings 1 2 3 ≡ None }
    ensures no_triangle { has_triangle trefoil.crossings 1 2 2 ≡ false }
{}
