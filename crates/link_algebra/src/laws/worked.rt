//! Mirrors, reversals and unions of known diagrams, as the definitions compute them.

ghost use Rattle.std.specs.Prelude.{◌≡◌, ◌∷◌, [], map, pos, true, neg_ℤ};
ghost use Rattle.kh_types.specs.Acceptance.{accepted};
ghost use Rattle.kh_types.specs.Code.{Code};
ghost use Rattle.kh_types.specs.StateSum.{state_sum};
ghost use Rattle.kh_types.specs.Table.{dimension, from_minus};
ghost use Rattle.kh_types.specs.WorkedCodes.{curl, empty_link, hopf_link, over_circle, slots_with, trefoil, without_loops};
ghost use Rattle.link_algebra.specs.Mirrors.{mirror_of, reversal_of};
ghost use Rattle.link_algebra.specs.Unions.{product_coefficient, union_of};

/// The mirror of the left-handed trefoil keeps its numbers, and has the trefoil's dimensions at the
/// opposite degrees; the mirror of that is the trefoil.
pub fn mirror_of_the_trefoil()
    ensures code { mirror_of trefoil
        ≡ without_loops (slots_with 4 2 5 1 ∷ slots_with 6 4 1 3 ∷ slots_with 2 6 3 5 ∷ []) }
    ensures again { mirror_of (mirror_of trefoil) ≡ trefoil }
    ensures last { dimension 2 (mirror_of trefoil) (pos 3) (pos 9) ≡ 1 }
    ensures last_opposite { dimension 2 trefoil (neg_ℤ (pos 3)) (neg_ℤ (pos 9)) ≡ 1 }
    ensures torsion { dimension 3 (mirror_of trefoil) (pos 2) (pos 7) ≡ 0 }
{}

/// The mirror of a circle that lies under another lies over it; where its second arc enters the
/// first listed crossing, the two get each other's numbers. So the mirror of the mirror is another
/// code; its mirror is the mirror again. Where its first arc does, the mirror of the mirror is the
/// code.
pub fn mirror_of_a_circle_under_another()
    ensures exchanged { mirror_of (without_loops (slots_with 2 4 1 3 ∷ slots_with 1 4 2 3 ∷ []))
        ≡ without_loops (slots_with 3 1 4 2 ∷ slots_with 4 1 3 2 ∷ []) }
    ensures twice { mirror_of (without_loops (slots_with 3 1 4 2 ∷ slots_with 4 1 3 2 ∷ []))
        ≡ over_circle }
    ensures thrice { mirror_of over_circle
        ≡ without_loops (slots_with 3 1 4 2 ∷ slots_with 4 1 3 2 ∷ []) }
    ensures again { mirror_of (mirror_of over_circle) ≡ over_circle }
{}

/// The reversal of the left-handed trefoil: its arcs get the numbers the other way round, from arc
/// 1.
pub fn reversal_of_the_trefoil()
    ensures code { reversal_of trefoil
        ≡ without_loops (slots_with 6 3 1 4 ∷ slots_with 4 1 5 2 ∷ slots_with 2 5 3 6 ∷ []) }
    ensures again { reversal_of (reversal_of trefoil) ≡ trefoil }
    ensures under { reversal_of (reversal_of
        (without_loops (slots_with 2 4 1 3 ∷ slots_with 1 4 2 3 ∷ [])))
        ≡ without_loops (slots_with 2 4 1 3 ∷ slots_with 1 4 2 3 ∷ []) }
{}

/// The union of a curl and the Hopf link; the empty link is the neutral one.
pub fn union_of_a_curl_and_the_hopf_link()
    ensures code { union_of curl hopf_link
        ≡ without_loops (slots_with 1 1 2 2 ∷ slots_with 6 3 5 4 ∷ slots_with 4 5 3 6 ∷ []) }
    ensures accepted { accepted (union_of curl hopf_link) ≡ true }
    ensures sums { map (state_sum (union_of curl hopf_link)) (from_minus 8)
        ≡ map (product_coefficient 5 (state_sum curl) (state_sum hopf_link)) (from_minus 8) }
    ensures loops { union_of (record curl { loops = 2 }) (record hopf_link { loops = 3 })
        ≡ record (union_of curl hopf_link) { loops = 5 } }
    ensures left { union_of empty_link hopf_link ≡ hopf_link }
    ensures right { union_of hopf_link empty_link ≡ hopf_link }
{}
