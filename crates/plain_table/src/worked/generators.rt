//! Generators, and their degrees.

ghost use Rattle.std.specs.Prelude.{◌≡◌, [], ◌∷◌, pos, neg_ℤ, length, true, false};
ghost use Rattle.kh_types.specs.Differential.{label_of};
ghost use Rattle.kh_types.specs.Generators.{generator_of, one_count, homological_degree, label_degree, quantum_degree, states, generators_of, generators, has_degrees, generators_at};
ghost use Rattle.kh_types.specs.WorkedCodes.{curl, trefoil};

/// In state 1 the trefoil has the circles 1 and 3. The label 2 has the bit 1 at place 1: the circle
/// 3, on which the arc 6 is, has v-, and the circle 1, on which the arc 5 is, has v+.
pub fn worked_labels()
    ensures Generator { label_of trefoil (record { state = 1; label = 2 }) 3 ≡ 1 }
    ensures generator_of { generator_of 1 2 ≡ record { state = 1; label = 2 } }
    ensures label_of { label_of trefoil (generator_of 1 2) 6 ≡ 1 }
    ensures label_of_plus { label_of trefoil (generator_of 1 2) 5 ≡ 0 }
    ensures label_of_last { label_of trefoil (generator_of 0 4) 6 ≡ 1 }
{}

/// Degrees: the trefoil has no positive crossing and three negative ones, and the curl has one
/// positive crossing.
pub fn worked_degrees()
    ensures one_count { one_count trefoil 4 ≡ 1 }
    ensures homological_degree { homological_degree trefoil (generator_of 6 0) ≡ neg_ℤ (pos 1) }
    ensures homological_degree_curl { homological_degree curl (generator_of 1 0) ≡ pos 1 }
    // Two labels v+ and one label v-, and three labels v-.
    ensures label_degree { label_degree trefoil (generator_of 0 4) ≡ pos 1 }
    ensures label_degree_minus { label_degree trefoil (generator_of 0 7) ≡ neg_ℤ (pos 3) }
    ensures quantum_degree { quantum_degree trefoil (generator_of 1 2) ≡ neg_ℤ (pos 5) }
    ensures quantum_degree_curl { quantum_degree curl (generator_of 1 0) ≡ pos 3 }
    ensures has_degrees { has_degrees trefoil (neg_ℤ (pos 2)) (neg_ℤ (pos 5)) (generator_of 1 2)
        ≡ true }
    ensures has_degrees_other_i { has_degrees trefoil (neg_ℤ (pos 1)) (neg_ℤ (pos 5))
        (generator_of 1 2) ≡ false }
    ensures has_degrees_other_j { has_degrees trefoil (neg_ℤ (pos 2)) (neg_ℤ (pos 7))
        (generator_of 1 2) ≡ false }
{}

/// Lists of generators. The trefoil has 30; those three of state 0 with v- on two circles and v+ on
/// one are at the degrees -3 and -7.
pub fn worked_generators()
    ensures states { states trefoil ≡ 0 ∷ 1 ∷ 2 ∷ 3 ∷ 4 ∷ 5 ∷ 6 ∷ 7 ∷ [] }
    ensures generators_of { generators_of trefoil 0
        ≡ generator_of 0 0 ∷ generator_of 0 1 ∷ generator_of 0 2 ∷ generator_of 0 3
        ∷ generator_of 0 4 ∷ generator_of 0 5 ∷ generator_of 0 6 ∷ generator_of 0 7 ∷ [] }
    ensures generators { generators curl
        ≡ generator_of 0 0 ∷ generator_of 0 1 ∷ generator_of 0 2 ∷ generator_of 0 3
        ∷ generator_of 1 0 ∷ generator_of 1 1 ∷ [] }
    ensures generators_trefoil { length (generators trefoil) ≡ 30 }
    ensures generators_at { generators_at trefoil (neg_ℤ (pos 3)) (neg_ℤ (pos 7))
        ≡ generator_of 0 3 ∷ generator_of 0 5 ∷ generator_of 0 6 ∷ [] }
{}
