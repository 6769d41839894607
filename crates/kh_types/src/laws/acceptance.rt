//! Which known codes are accepted, and the rule that each of some others breaks first.

ghost use Rattle.std.specs.Prelude.{◌≡◌, Some, None, [], ◌∷◌, true, reverse, pos, neg_ℤ};
ghost use Rattle.kh_types.specs.declared.fault.CodeFault.{CodeFault};
ghost use Rattle.kh_types.specs.declared.fault.CodeFault.TheVariants.{ArcRange, ArcTimes, Interval, Under, Over, TwoArc, Checkerboard, Genus, Components};
ghost use Rattle.kh_types.specs.WorkedCodes.{without_loops, slots_with, empty_link, one_loop, curl, two_curls, over_circle, hopf_link, trefoil, figure_eight, turned_trefoil, virtual_trefoil};
ghost use Rattle.kh_types.specs.Components.{component_count};
ghost use Rattle.kh_types.specs.Faces.{face_count, piece_count};
ghost use Rattle.kh_types.specs.Directions.{sign_of, plus_count, minus_count, head_of, tail_of};
ghost use Rattle.kh_types.specs.Acceptance.{first_fault, accepted, under_fault, over_fault, two_arc_fault, checkerboard_fault};

/// These codes are accepted.
pub fn known_codes_are_accepted()
    ensures empty { accepted empty_link ≡ true }
    ensures loop_alone { accepted one_loop ≡ true }
    ensures curled { accepted curl ≡ true }
    ensures hopf { accepted hopf_link ≡ true }
    ensures three { accepted trefoil ≡ true }
    ensures four { accepted figure_eight ≡ true }
    ensures apart { accepted two_curls ≡ true }
    ensures over { accepted over_circle ≡ true }
    ensures many_loops { accepted (record empty_link { loops = 28 }) ≡ true }
{}

/// Counts, signs, heads and tails of known codes. A circle of two arcs that is over at both its
/// crossings goes from the smaller to the greater at the first listed of them, and back at the
/// other: in either order of the crossings. The over pass of a curl goes against its under pass.
pub fn known_codes_have_these_parts()
    ensures trefoil_components { component_count trefoil.crossings ≡ 1 }
    ensures trefoil_faces { face_count trefoil.crossings ≡ 5 }
    ensures trefoil_pieces { piece_count trefoil.crossings ≡ 1 }
    ensures trefoil_plus { plus_count trefoil.crossings ≡ 0 }
    ensures trefoil_minus { minus_count trefoil.crossings ≡ 3 }
    ensures hopf_components { component_count hopf_link.crossings ≡ 2 }
    ensures hopf_minus { minus_count hopf_link.crossings ≡ 2 }
    ensures curl_plus { plus_count curl.crossings ≡ 1 }
    ensures curls_apart_pieces { piece_count two_curls.crossings ≡ 2 }
    ensures curls_apart_faces { face_count two_curls.crossings ≡ 6 }
    ensures over_first { sign_of over_circle.crossings 1 ≡ pos 1 }
    ensures over_second { sign_of over_circle.crossings 2 ≡ neg_ℤ (pos 1) }
    ensures listed_other_first { sign_of (reverse over_circle.crossings) 1 ≡ pos 1 }
    ensures listed_other_second { sign_of (reverse over_circle.crossings) 2 ≡ neg_ℤ (pos 1) }
    ensures first_head { head_of trefoil.crossings 1 ≡ record { crossing = 1; slot = 0 } }
    ensures first_tail { tail_of trefoil.crossings 1 ≡ record { crossing = 2; slot = 3 } }
    ensures fourth_head { head_of trefoil.crossings 4 ≡ record { crossing = 1; slot = 1 } }
    ensures fourth_tail { tail_of trefoil.crossings 4 ≡ record { crossing = 2; slot = 2 } }
    ensures curl_head { head_of curl.crossings 1 ≡ record { crossing = 1; slot = 0 } }
    ensures curl_tail { tail_of curl.crossings 1 ≡ record { crossing = 1; slot = 1 } }
{}

/// The first rule that each of these codes breaks, with what shows it.
pub fn codes_break_these_rules_first()
    ensures arc_range { first_fault (without_loops (slots_with 0 1 2 2 ∷ [])) ≡ Some (ArcRange 1 0) }
    ensures arc_times { first_fault
        (without_loops (slots_with 1 4 2 5 ∷ slots_with 3 6 4 1 ∷ slots_with 5 2 6 6 ∷ []))
        ≡ Some (ArcTimes 3 1) }
    ensures interval { first_fault (without_loops (slots_with 4 1 2 3 ∷ slots_with 3 2 1 4 ∷ []))
        ≡ Some (Interval 1) }
    ensures under { first_fault
        (without_loops (slots_with 2 5 1 4 ∷ slots_with 3 6 4 1 ∷ slots_with 5 2 6 3 ∷ []))
        ≡ Some (Under 1) }
    ensures over { first_fault (without_loops (slots_with 1 1 2 3 ∷ slots_with 3 2 4 4 ∷ []))
        ≡ Some (Over 1) }
    ensures two_arc { first_fault (without_loops (slots_with 1 4 2 3 ∷ slots_with 1 4 2 3 ∷ []))
        ≡ Some (TwoArc 2) }
    ensures components { first_fault (record empty_link { loops = 29 }) ≡ Some (Components 29) }
    ensures component_counts { first_fault (record curl { loops = 28 }) ≡ Some (Components 29) }
    // Of the pairs of under passes at the crossings 1 and 4, and 2 and 3, the one whose second
    // comes first.
    ensures least_second { first_fault
        (without_loops (slots_with 1 5 2 6 ∷ slots_with 3 7 4 8 ∷ slots_with 3 8 4 7
        ∷ slots_with 1 5 2 6 ∷ []))
        ≡ Some (TwoArc 3) }
    // A component of one arc has itself as its next, so an under pass from it to it breaks no rule
    // of passes.
    ensures one_arc { first_fault (without_loops (slots_with 1 2 1 2 ∷ [])) ≡ Some (Checkerboard 1) }
    // Two components are no intervals: the least arc of both.
    ensures least_interval { first_fault (without_loops (slots_with 1 2 3 4 ∷ slots_with 3 4 1 2 ∷ []))
        ≡ Some (Interval 1) }
    // The virtual trefoil has no checkerboard: its first two equations contradict each other.
    ensures no_checkerboard { first_fault virtual_trefoil ≡ Some (Checkerboard 2) }
    // One crossing of the trefoil turned: the code has a checkerboard, but it is drawn on a torus.
    ensures checkerboard { checkerboard_fault turned_trefoil.crossings ≡ None }
    ensures torus { first_fault turned_trefoil ≡ Some (Genus 3 5) }
{}

/// Codes that break several rules, with the first of them and others that come later: the rules
/// have an order.
pub fn earlier_rules_come_first()
    ensures under_before_over { first_fault (without_loops (slots_with 4 1 2 3 ∷ slots_with 3 1 2 4 ∷ []))
        ≡ Some (Under 1) }
    ensures over_too { over_fault (slots_with 4 1 2 3 ∷ slots_with 3 1 2 4 ∷ []) ≡ Some (Over 1) }
    ensures over_before_two_arc { first_fault
        (without_loops (slots_with 2 6 1 4 ∷ slots_with 4 5 5 3 ∷ slots_with 2 3 1 6 ∷ []))
        ≡ Some (Over 1) }
    ensures two_arc_later { two_arc_fault
        (slots_with 2 6 1 4 ∷ slots_with 4 5 5 3 ∷ slots_with 2 3 1 6 ∷ []) ≡ Some (TwoArc 3) }
    // The under pass that is wrong is that of the last crossing, and the other two rules are broken
    // before it.
    ensures under_before_both { first_fault
        (without_loops (slots_with 2 5 1 6 ∷ slots_with 2 4 1 6 ∷ slots_with 5 3 3 4 ∷ []))
        ≡ Some (Under 3) }
    ensures over_of_both { over_fault
        (slots_with 2 5 1 6 ∷ slots_with 2 4 1 6 ∷ slots_with 5 3 3 4 ∷ []) ≡ Some (Over 2) }
    ensures two_arc_of_both { two_arc_fault
        (slots_with 2 5 1 6 ∷ slots_with 2 4 1 6 ∷ slots_with 5 3 3 4 ∷ []) ≡ Some (TwoArc 2) }
    ensures two_arc_before_checkerboard { first_fault
        (without_loops (slots_with 3 1 4 1 ∷ slots_with 3 2 4 2 ∷ [])) ≡ Some (TwoArc 2) }
    ensures checkerboard_later { checkerboard_fault (slots_with 3 1 4 1 ∷ slots_with 3 2 4 2 ∷ [])
        ≡ Some (Checkerboard 1) }
    ensures interval_before_both { first_fault
        (without_loops (slots_with 1 4 4 3 ∷ slots_with 3 2 1 2 ∷ [])) ≡ Some (Interval 1) }
    ensures under_of_both { under_fault (slots_with 1 4 4 3 ∷ slots_with 3 2 1 2 ∷ []) ≡ Some (Under 1) }
    ensures checkerboard_of_both { checkerboard_fault (slots_with 1 4 4 3 ∷ slots_with 3 2 1 2 ∷ [])
        ≡ Some (Checkerboard 2) }
{}
