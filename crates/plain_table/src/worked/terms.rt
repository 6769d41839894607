//! State sums and Euler characteristics, coefficient by coefficient, and terms.

ghost use Rattle.std.specs.Prelude.{◌≡◌, [], ◌∷◌, pos, neg_ℤ, codes};
ghost use Rattle.kh_types.specs.StateSum.{int_sum, signed_by_parity, signed_by, circle_coefficient, term_of, term_with, sum_with, state_sum, euler, terms, term_text, terms_text, polynomial_text};
ghost use Rattle.kh_types.specs.WorkedCodes.{curl, trefoil};

/// Signs and sums, and the powers of q + q^-1: its cube is q^3 + 3 q + 3 q^-1 + q^-3.
pub fn worked_sums()
    ensures int_sum { int_sum (pos 2 ∷ neg_ℤ (pos 5) ∷ pos 1 ∷ []) ≡ neg_ℤ (pos 2) }
    ensures signed_by_parity { signed_by_parity 3 2 ≡ neg_ℤ (pos 2) }
    ensures signed_by_parity_even { signed_by_parity 4 2 ≡ pos 2 }
    ensures signed_by { signed_by (neg_ℤ (pos 3)) 2 ≡ neg_ℤ (pos 2) }
    ensures signed_by_above { signed_by (pos 3) 2 ≡ neg_ℤ (pos 2) }
    ensures signed_by_even { signed_by (neg_ℤ (pos 2)) 2 ≡ pos 2 }
    ensures circle_coefficient { circle_coefficient 3 (neg_ℤ (pos 1)) ≡ 3 }
    ensures circle_coefficient_above { circle_coefficient 3 (pos 1) ≡ 3 }
    ensures circle_coefficient_end { circle_coefficient 3 (neg_ℤ (pos 3)) ≡ 1 }
    ensures circle_coefficient_none { circle_coefficient 3 (pos 2) ≡ 0 }
{}

/// What states add. With three positive crossings and four negative, a state with one 1-smoothing
/// and two circles adds -q^-4 (q + q^-1)^2; with two positive and one negative it adds
/// q (q + q^-1)^2, or q (q + q^-1)^3 if it has three circles. State 1 of the trefoil adds
/// q^-5 (q + q^-1)^2.
pub fn worked_terms_of_states()
    ensures term_of { term_of 3 4 (neg_ℤ (pos 4)) 1 2 ≡ neg_ℤ (pos 2) }
    ensures term_of_plus { term_of 2 1 (neg_ℤ (pos 1)) 1 2 ≡ pos 1 }
    ensures term_of_three { term_of 2 1 (neg_ℤ (pos 2)) 1 3 ≡ pos 1 }
    ensures term_with { term_with 0 3 trefoil (neg_ℤ (pos 5)) 1 ≡ pos 2 }
    ensures sum_with { sum_with 3 0 trefoil (pos 0) ≡ pos 1 }
    ensures sum_with_own { sum_with 0 3 trefoil (neg_ℤ (pos 9)) ≡ neg_ℤ (pos 1) }
    ensures state_sum { state_sum trefoil (neg_ℤ (pos 9)) ≡ neg_ℤ (pos 1) }
    ensures state_sum_above { state_sum trefoil (neg_ℤ (pos 5)) ≡ pos 1 }
    // One row of degree -3 less, three of degree -2 more, and a row that is at another degree j.
    ensures euler { euler (record {
      field = 2;
      rows =
          record { j = neg_ℤ (pos 7); i = neg_ℤ (pos 3); dim = 1 }
          ∷ record { j = neg_ℤ (pos 7); i = neg_ℤ (pos 2); dim = 3 }
          ∷ record { j = neg_ℤ (pos 5); i = neg_ℤ (pos 2); dim = 1 } ∷ [];
    }) (neg_ℤ (pos 7)) ≡ pos 2 }
{}

/// Terms and their texts; the terms of the trefoil's state sum.
pub fn worked_terms()
    ensures terms { terms (state_sum trefoil)
        ≡ record { coefficient = neg_ℤ (pos 1); exponent = neg_ℤ (pos 9) }
        ∷ record { coefficient = pos 1; exponent = neg_ℤ (pos 5) }
        ∷ record { coefficient = pos 1; exponent = neg_ℤ (pos 3) }
        ∷ record { coefficient = pos 1; exponent = neg_ℤ (pos 1) } ∷ [] }
    ensures Term { term_text (record { coefficient = neg_ℤ (pos 1); exponent = neg_ℤ (pos 9) })
        ≡ codes " -1*q^-9" }
    ensures term_text { term_text (record { coefficient = pos 12; exponent = pos 3 })
        ≡ codes " 12*q^3" }
    ensures terms_text { terms_text
        (record { coefficient = neg_ℤ (pos 1); exponent = neg_ℤ (pos 9) }
        ∷ record { coefficient = pos 12; exponent = pos 3 } ∷ [])
        ≡ codes " -1*q^-9 12*q^3" }
    ensures terms_text_none { terms_text [] ≡ codes " 0" }
    ensures polynomial_text { polynomial_text (state_sum curl) ≡ codes "jones 1*q^-1 1*q^1\n" }
    ensures polynomial_text_none { polynomial_text (λ exponent. pos 0) ≡ codes "jones 0\n" }
{}
