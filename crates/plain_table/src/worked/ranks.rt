//! Gauss's elimination modulo a prime, on rows of small numbers.

ghost use Rattle.std.specs.Prelude.{◌≡◌, [], ◌∷◌, true, false};
ghost use Rattle.kh_types.specs.Rank.{has_entry, lead_of, inverse, minus_mod, less_multiple, cleared, reduced_by, rank_within, rank};

/// Modulo 5: 3 times 2 is 1, and 1 - 3 is 3. Modulo 7 the row 1 3 3 less 5 times the row 0 2 1 is
/// 1 0 5.
pub fn worked_elimination()
    ensures has_entry { has_entry (0 ∷ 2 ∷ []) ≡ true }
    ensures has_entry_not { has_entry (0 ∷ 0 ∷ []) ≡ false }
    ensures lead_of { lead_of (0 ∷ 0 ∷ 2 ∷ 1 ∷ []) ≡ 2 }
    ensures inverse { inverse 5 2 ≡ 3 }
    ensures inverse_seven { inverse 7 4 ≡ 2 }
    ensures minus_mod { minus_mod 5 1 3 ≡ 3 }
    ensures minus_mod_greater { minus_mod 5 4 8 ≡ 1 }
    ensures less_multiple { less_multiple 5 (1 ∷ 2 ∷ 3 ∷ []) (1 ∷ 4 ∷ 2 ∷ []) 3 ≡ 3 ∷ 0 ∷ 2 ∷ [] }
    ensures cleared { cleared 7 (0 ∷ 2 ∷ 1 ∷ []) 1 (1 ∷ 3 ∷ 3 ∷ []) ≡ 1 ∷ 0 ∷ 5 ∷ [] }
    ensures reduced_by { reduced_by 7 (0 ∷ 2 ∷ 1 ∷ []) ((1 ∷ 3 ∷ 3 ∷ []) ∷ (1 ∷ 0 ∷ 3 ∷ []) ∷ [])
        ≡ (1 ∷ 5 ∷ []) ∷ (1 ∷ 3 ∷ []) ∷ [] }
{}

/// Ranks of the matrix of the trefoil's differential from degree -3 at -7, whose determinant is 2:
/// modulo 3 its rank is 3, and modulo 2 it is 2. One step finds one pivot.
pub fn worked_ranks()
    // The first row has no entry.
    ensures rank_within { rank_within 3 3
        ((0 ∷ 0 ∷ 0 ∷ []) ∷ (0 ∷ 2 ∷ 1 ∷ []) ∷ (1 ∷ 1 ∷ 2 ∷ []) ∷ (2 ∷ 1 ∷ 1 ∷ []) ∷ []) ≡ 3 }
    ensures rank_within_one { rank_within 1 2 ((0 ∷ 0 ∷ []) ∷ (0 ∷ 2 ∷ []) ∷ (1 ∷ 1 ∷ []) ∷ [])
        ≡ 1 }
    ensures rank_within_two { rank_within 3 2
        ((0 ∷ 1 ∷ 1 ∷ []) ∷ (1 ∷ 0 ∷ 1 ∷ []) ∷ (1 ∷ 1 ∷ 0 ∷ []) ∷ []) ≡ 2 }
    ensures rank { rank 3 ((0 ∷ 1 ∷ 1 ∷ []) ∷ (1 ∷ 0 ∷ 1 ∷ []) ∷ (1 ∷ 1 ∷ 0 ∷ []) ∷ []) ≡ 3 }
    // The second row is twice the first.
    ensures rank_twice { rank 3 ((1 ∷ 2 ∷ []) ∷ (2 ∷ 1 ∷ []) ∷ []) ≡ 1 }
    ensures rank_two { rank 2 ((0 ∷ 1 ∷ 1 ∷ []) ∷ (1 ∷ 0 ∷ 1 ∷ []) ∷ (1 ∷ 1 ∷ 0 ∷ []) ∷ []) ≡ 2 }
{}
