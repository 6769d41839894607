//! Directions of over passes, and so the signs of crossings.

ghost use Rattle.std.specs.Prelude.{◌≡◌, [], ◌∷◌, true, false, None, Some};
ghost use Rattle.kh_types.specs.Components.{components_of};
ghost use Rattle.kh_types.specs.Directions.{passes_under, passes_over, first_under, first_over, is_positive_by_next, is_positive_by_under, is_positive_by_order, is_positive_of_two, is_positive_in, plus_count, minus_count};
ghost use Rattle.kh_types.specs.WorkedCodes.{slots_with, curl, two_curls, over_circle, hopf_link, trefoil, figure_eight};

/// Where components pass. In the Hopf link, as in a circle over another, the component 1 has the
/// arcs 1 and 2, and the component 3 has 3 and 4. In the Hopf link 3 passes under at crossing 1,
/// and 1 at crossing 2; the circle 3 passes over at both crossings.
pub fn worked_passes()
    ensures passes_under { passes_under hopf_link.crossings (0 ∷ 1 ∷ 1 ∷ 3 ∷ 3 ∷ []) 3 1 ≡ true }
    ensures passes_under_not { passes_under hopf_link.crossings (0 ∷ 1 ∷ 1 ∷ 3 ∷ 3 ∷ []) 1 1
        ≡ false }
    ensures passes_over { passes_over hopf_link.crossings (0 ∷ 1 ∷ 1 ∷ 3 ∷ 3 ∷ []) 3 2 ≡ true }
    ensures passes_over_not { passes_over hopf_link.crossings (0 ∷ 1 ∷ 1 ∷ 3 ∷ 3 ∷ []) 3 1 ≡ false }
    ensures first_under { first_under hopf_link.crossings (0 ∷ 1 ∷ 1 ∷ 3 ∷ 3 ∷ []) 1 ≡ Some 2 }
    ensures first_under_first { first_under over_circle.crossings (0 ∷ 1 ∷ 1 ∷ 3 ∷ 3 ∷ []) 1
        ≡ Some 1 }
    ensures first_under_none { first_under over_circle.crossings (0 ∷ 1 ∷ 1 ∷ 3 ∷ 3 ∷ []) 3 ≡ None }
    ensures first_over { first_over hopf_link.crossings (0 ∷ 1 ∷ 1 ∷ 3 ∷ 3 ∷ []) 3 ≡ Some 2 }
    ensures first_over_first { first_over over_circle.crossings (0 ∷ 1 ∷ 1 ∷ 3 ∷ 3 ∷ []) 3
        ≡ Some 1 }
    ensures first_over_none { first_over over_circle.crossings (0 ∷ 1 ∷ 1 ∷ 3 ∷ 3 ∷ []) 1 ≡ None }
{}

/// The rules for the direction of an over pass. At the second crossing of the figure eight knot it
/// goes from arc 5, at slot 3, to arc 6, at slot 1; at the trefoil's from 6, at slot 1, to 1, at
/// slot 3.
pub fn worked_rules()
    ensures is_positive_by_next { is_positive_by_next (components_of figure_eight.crossings)
        (slots_with 8 6 1 5) ≡ true }
    ensures is_positive_by_next_not { is_positive_by_next (components_of trefoil.crossings)
        (slots_with 3 6 4 1) ≡ false }
    // The curl passes under from arc 1 to arc 2, so it passes over from 2, at slot 3, to 1.
    ensures is_positive_by_under { is_positive_by_under curl.crossings (slots_with 1 1 2 2) 1
        ≡ true }
    // The Hopf link's component 1 passes under at crossing 2, from arc 2 to 1, so it passes over at
    // crossing 1 from 1, at slot 1, to 2. Below is the Hopf link with one component turned round:
    // there it passes over from 1, at slot 3.
    ensures is_positive_by_under_not { is_positive_by_under hopf_link.crossings (slots_with 4 1 3 2)
        2 ≡ false }
    ensures is_positive_by_under_turned { is_positive_by_under
        (slots_with 4 2 3 1 ∷ slots_with 2 4 1 3 ∷ []) (slots_with 4 2 3 1) 2 ≡ true }
    // From arc 3 to 4 at the first crossing, and back at the second, whichever is at slot 1.
    ensures is_positive_by_order { is_positive_by_order (slots_with 1 4 2 3) true ≡ true }
    ensures is_positive_by_order_turned { is_positive_by_order (slots_with 1 3 2 4) true ≡ false }
    ensures is_positive_by_order_back { is_positive_by_order (slots_with 2 4 1 3) false ≡ false }
    ensures is_positive_by_order_back_turned { is_positive_by_order (slots_with 2 3 1 4) false
        ≡ true }
{}

/// Signs of crossings: the trefoil's three are negative; of the figure eight knot two are positive
/// and two negative; the curl's is positive; of the two at which a circle lies over another the
/// first is positive.
pub fn worked_signs()
    ensures is_positive_of_two { is_positive_of_two over_circle.crossings (0 ∷ 1 ∷ 1 ∷ 3 ∷ 3 ∷ []) 1
        ≡ true }
    ensures is_positive_of_two_back { is_positive_of_two over_circle.crossings
        (0 ∷ 1 ∷ 1 ∷ 3 ∷ 3 ∷ []) 2 ≡ false }
    ensures is_positive_of_two_curls { is_positive_of_two two_curls.crossings
        (0 ∷ 1 ∷ 1 ∷ 3 ∷ 3 ∷ []) 2 ≡ true }
    ensures is_positive_of_two_hopf { is_positive_of_two hopf_link.crossings
        (0 ∷ 1 ∷ 1 ∷ 3 ∷ 3 ∷ []) 1 ≡ false }
    ensures is_positive_in { is_positive_in figure_eight.crossings
        (components_of figure_eight.crossings) 1 ≡ true }
    ensures is_positive_in_not { is_positive_in trefoil.crossings (components_of trefoil.crossings)
        2 ≡ false }
    ensures is_positive_in_of_two { is_positive_in over_circle.crossings (0 ∷ 1 ∷ 1 ∷ 3 ∷ 3 ∷ []) 2
        ≡ false }
    // The same circle, of the arcs 5 and 6, over a component of four arcs, with a curl.
    ensures is_positive_in_mixed { is_positive_in
        (slots_with 1 6 2 5 ∷ slots_with 2 6 3 5 ∷ slots_with 3 1 4 4 ∷ [])
        (0 ∷ 1 ∷ 1 ∷ 1 ∷ 1 ∷ 5 ∷ 5 ∷ []) 2 ≡ false }
    ensures plus_count { plus_count trefoil.crossings ≡ 0 }
    ensures plus_count_curl { plus_count curl.crossings ≡ 1 }
    ensures plus_count_eight { plus_count figure_eight.crossings ≡ 2 }
    ensures minus_count { minus_count trefoil.crossings ≡ 3 }
    ensures minus_count_curl { minus_count curl.crossings ≡ 0 }
{}
