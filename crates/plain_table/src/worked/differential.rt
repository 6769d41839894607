//! The differential of the trefoil: its entries, one by one, and two of its matrices.

ghost use Rattle.std.specs.Prelude.{◌≡◌, [], ◌∷◌, pos, neg_ℤ, map, true, false};
ghost use Rattle.kh_types.specs.Differential.{is_touched, touched, is_merge, is_split, is_edge, keeps_labels, changes_labels, edge_sign, coefficient_at, coefficient, differential};
ghost use Rattle.kh_types.specs.Generators.{generator_of};
ghost use Rattle.kh_types.specs.WorkedCodes.{trefoil};

/// Circles that a crossing touches, and labels before and after, 0 for v+ and 1 for v-.
pub fn worked_merges()
    // State 2 has the circles 1 and 2, and the third crossing is on both; state 1 has 1 and 3, and
    // the first crossing is on 1 alone. In state 0 the second is on 1 and 3, which become one.
    ensures is_touched { is_touched trefoil 2 3 2 ≡ true }
    ensures is_touched_not { is_touched trefoil 1 1 3 ≡ false }
    ensures is_touched_none { is_touched trefoil 1 1 2 ≡ false }
    ensures touched { touched trefoil 0 2 ≡ 1 ∷ 3 ∷ [] }
    ensures touched_after { touched trefoil 2 2 ≡ 1 ∷ [] }
    // v+ v+ gives v+; v+ v- and v- v+ give v-; v- v- gives 0: each with v+ behind it, then with v-.
    ensures is_merge { map (is_merge (0 ∷ 0 ∷ [])) ((0 ∷ []) ∷ (1 ∷ []) ∷ []) ≡ true ∷ false ∷ [] }
    ensures is_merge_plus_minus { map (is_merge (0 ∷ 1 ∷ [])) ((0 ∷ []) ∷ (1 ∷ []) ∷ [])
        ≡ false ∷ true ∷ [] }
    ensures is_merge_minus_plus { map (is_merge (1 ∷ 0 ∷ [])) ((0 ∷ []) ∷ (1 ∷ []) ∷ [])
        ≡ false ∷ true ∷ [] }
    ensures is_merge_minus_minus { map (is_merge (1 ∷ 1 ∷ [])) ((0 ∷ []) ∷ (1 ∷ []) ∷ [])
        ≡ false ∷ false ∷ [] }
    // v+ gives v+ v- and v- v+; v- gives v- v-: each with all four pairs of labels behind it.
    ensures is_split { map (is_split (0 ∷ []))
        ((0 ∷ 0 ∷ []) ∷ (0 ∷ 1 ∷ []) ∷ (1 ∷ 0 ∷ []) ∷ (1 ∷ 1 ∷ []) ∷ [])
        ≡ false ∷ true ∷ true ∷ false ∷ [] }
    ensures is_split_minus { map (is_split (1 ∷ []))
        ((0 ∷ 0 ∷ []) ∷ (0 ∷ 1 ∷ []) ∷ (1 ∷ 0 ∷ []) ∷ (1 ∷ 1 ∷ []) ∷ [])
        ≡ false ∷ false ∷ false ∷ true ∷ [] }
{}

/// Edges and their signs. An edge leads from state 1 to state 9, at the fourth crossing. Modulo 5
/// the sign - is 4.
pub fn worked_edges()
    ensures is_edge { is_edge (generator_of 1 0) (generator_of 9 0) 4 ≡ true }
    ensures is_edge_back { is_edge (generator_of 9 0) (generator_of 1 0) 4 ≡ false }
    ensures is_edge_elsewhere { is_edge (generator_of 0 0) (generator_of 1 0) 2 ≡ false }
    // 2 is 1 + 1, but state 1 has the 1-smoothing of the first crossing already.
    ensures is_edge_carried { is_edge (generator_of 1 0) (generator_of 2 0) 1 ≡ false }
    // The first crossing does not touch the circle 3, which has v+, and keeps it, or not; the third
    // touches the one circle of state 3, and so leaves none.
    ensures keeps_labels { keeps_labels trefoil (generator_of 0 1) (generator_of 1 1) 1 ≡ true }
    ensures keeps_labels_not { keeps_labels trefoil (generator_of 0 2) (generator_of 1 2) 1
        ≡ false }
    ensures keeps_labels_none { keeps_labels trefoil (generator_of 3 0) (generator_of 7 3) 3
        ≡ true }
    // The circles 1 and 2 have v+, and become one with v+, or with v-.
    ensures changes_labels { changes_labels trefoil (generator_of 0 4) (generator_of 1 2) 1 ≡ true }
    ensures changes_labels_not { changes_labels trefoil (generator_of 0 4) (generator_of 1 3) 1
        ≡ false }
    // The one circle of state 3 becomes two at the third crossing.
    ensures changes_labels_split { changes_labels trefoil (generator_of 3 0) (generator_of 7 1) 3
        ≡ true }
    ensures changes_labels_split_not { changes_labels trefoil (generator_of 3 1) (generator_of 7 1)
        3 ≡ false }
    // Before the second crossing none or one has its 1-smoothing, and before the third two.
    ensures edge_sign { edge_sign 5 4 2 ≡ 1 }
    ensures edge_sign_own { edge_sign 5 2 2 ≡ 1 }
    ensures edge_sign_minus { edge_sign 5 1 2 ≡ 4 }
    ensures edge_sign_two { edge_sign 5 3 3 ≡ 1 }
{}

/// Coefficients modulo 5, from state 1, with v+ on the circle 1 and v- on 3, to state 3, which has
/// one circle, with v-; and the matrices from degree -3 at -7, and from degree -2 at -5.
pub fn worked_coefficients()
    ensures coefficient_at { coefficient_at 5 trefoil (generator_of 1 2) (generator_of 3 1) 2 ≡ 4 }
    ensures coefficient_at_elsewhere { coefficient_at 5 trefoil (generator_of 1 2)
        (generator_of 3 1) 3 ≡ 0 }
    ensures coefficient { coefficient 5 trefoil (generator_of 1 2) (generator_of 3 1) ≡ 4 }
    // The third crossing has its 1-smoothing, but is listed behind the second.
    ensures coefficient_at_plus { coefficient_at 5 trefoil (generator_of 4 2) (generator_of 6 1) 2
        ≡ 1 }
    // No edge leads back; a label off the crossing changes; and v- v- gives 0.
    ensures coefficient_at_back { coefficient_at 5 trefoil (generator_of 7 1) (generator_of 3 1) 3
        ≡ 0 }
    ensures coefficient_at_other { coefficient_at 5 trefoil (generator_of 0 4) (generator_of 1 0) 1
        ≡ 0 }
    ensures coefficient_at_none { coefficient_at 5 trefoil (generator_of 1 3) (generator_of 3 1) 2
        ≡ 0 }
    ensures coefficient_none { coefficient 5 trefoil (generator_of 1 3) (generator_of 3 1) ≡ 0 }
    ensures differential { differential 3 trefoil (neg_ℤ (pos 3)) (neg_ℤ (pos 7))
        ≡ (0 ∷ 1 ∷ 1 ∷ []) ∷ (1 ∷ 0 ∷ 1 ∷ []) ∷ (1 ∷ 1 ∷ 0 ∷ []) ∷ [] }
    ensures differential_signs { differential 3 trefoil (neg_ℤ (pos 2)) (neg_ℤ (pos 5))
        ≡ (2 ∷ 2 ∷ 1 ∷ 1 ∷ 0 ∷ 0 ∷ []) ∷ (2 ∷ 2 ∷ 0 ∷ 0 ∷ 1 ∷ 1 ∷ []) ∷ (0 ∷ 0 ∷ 2 ∷ 2 ∷ 1 ∷ 1 ∷ [])
        ∷ [] }
{}
