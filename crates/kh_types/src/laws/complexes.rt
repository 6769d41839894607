//! What makes plain data a complex, worked blocks, and legal histories that leave the dimensions of
//! the trefoil's table.

ghost use Rattle.std.specs.Prelude.{◌≡◌, ℕ, ◌<◌, ◌↔◌, IsTrue, ℤ, pos, neg_ℤ, [], ◌∷◌, length, map, slice_index_or, Bool, true, false};
ghost use Rattle.kh_types.specs.WorkedCodes.{hopf_link, trefoil, figure_eight};
ghost use Rattle.kh_types.specs.WorkedHistories.{trefoil_block, hopf_block, pivot_of, history_over_two, history_over_five};
ghost use Rattle.kh_types.specs.Differential.{differential};
ghost use Rattle.kh_types.specs.Table.{dimension};
ghost use Rattle.kh_types.specs.Complex.{Complex, IsComplex, Pivot, alive_count, cancel, cancelled_matrix, degree_of, dimension_of, is_zero, pivot_at};
ghost use Rattle.kh_types.specs.ComplexTests.{is_complex};
ghost use Rattle.kh_types.specs.History.{block, IsLegal, replay};

/// These blocks of the cube are complexes, and so is what a cancellation and a history leave of two
/// of them. Data over three elements is no complex over five, where a product is not 0, nor over
/// two, where an entry is too large.
pub fn known_blocks_are_complexes()
    ensures hopf { IsComplex 3 hopf_block }
    ensures first_over_two { IsComplex 2 (block 2 trefoil (neg_ℤ (pos 5))) }
    ensures second_over_two { IsComplex 2 (trefoil_block 2) }
    ensures over_three { IsComplex 3 (block 3 trefoil (neg_ℤ (pos 5))) }
    ensures over_five { IsComplex 5 (block 5 trefoil (neg_ℤ (pos 5))) }
    ensures upper_over_five { IsComplex 5 (block 5 trefoil (neg_ℤ (pos 3))) }
    ensures four { IsComplex 3 (block 3 figure_eight (neg_ℤ (pos 1))) }
    ensures cancelled { IsComplex 3 (cancel 3 hopf_block (pivot_at (neg_ℤ (pos 2)) 0 0)) }
    ensures replayed { IsComplex 2 (replay 2 (trefoil_block 2) history_over_two) }
    ensures product { IsComplex 5 hopf_block → ⊥ }
    ensures entry { IsComplex 2 hopf_block → ⊥ }
{}

/// Legal histories of the trefoil's block at -7 leave a zero complex, with as many places alive as
/// the table has dimensions, which the block has before anything is cancelled: over two elements
/// two cancellations do, over five it takes three, and nothing is left alive. A history with a
/// pivot at an entry 0 is not legal.
pub fn known_histories_leave_the_dimensions()
    ensures legal_over_two { IsLegal 2 (trefoil_block 2) history_over_two }
    ensures zero_over_two { is_zero (replay 2 (trefoil_block 2) history_over_two) ≡ true }
    ensures lower_over_two { alive_count (replay 2 (trefoil_block 2) history_over_two) (neg_ℤ (pos 3))
        ≡ dimension 2 trefoil (neg_ℤ (pos 3)) (neg_ℤ (pos 7)) }
    ensures upper_over_two { alive_count (replay 2 (trefoil_block 2) history_over_two) (neg_ℤ (pos 2))
        ≡ dimension 2 trefoil (neg_ℤ (pos 2)) (neg_ℤ (pos 7)) }
    ensures legal_over_five { IsLegal 5 (trefoil_block 5) history_over_five }
    ensures zero_over_five { is_zero (replay 5 (trefoil_block 5) history_over_five) ≡ true }
    ensures lower_over_five { alive_count (replay 5 (trefoil_block 5) history_over_five) (neg_ℤ (pos 3))
        ≡ dimension 5 trefoil (neg_ℤ (pos 3)) (neg_ℤ (pos 7)) }
    ensures upper_over_five { alive_count (replay 5 (trefoil_block 5) history_over_five) (neg_ℤ (pos 2))
        ≡ dimension 5 trefoil (neg_ℤ (pos 2)) (neg_ℤ (pos 7)) }
    ensures before_lower_over_two { dimension_of 2 (trefoil_block 2) (neg_ℤ (pos 3)) ≡ 1 }
    ensures before_upper_over_two { dimension_of 2 (trefoil_block 2) (neg_ℤ (pos 2)) ≡ 1 }
    ensures before_lower_over_five { dimension_of 5 (trefoil_block 5) (neg_ℤ (pos 3)) ≡ 0 }
    ensures before_upper_over_five { dimension_of 5 (trefoil_block 5) (neg_ℤ (pos 2)) ≡ 0 }
    // At the start, and after a cancellation has made the entry 0.
    ensures first_no_pivot { IsLegal 2 (trefoil_block 2) (pivot_of 0 0 ∷ []) → ⊥ }
    ensures later_no_pivot { IsLegal 2 (trefoil_block 2) (pivot_of 1 0 ∷ pivot_of 2 0 ∷ []) → ⊥ }
    ensures third_no_pivot { IsLegal 2 (trefoil_block 2) (pivot_of 1 0 ∷ pivot_of 0 1 ∷ pivot_of 2 2 ∷ [])
        → ⊥ }
{}

/// A cancellation reaches both neighbouring matrices: in the block of the Hopf link at -4, with 2,
/// 2 and 1 places, a pivot of the first matrix clears a column of the second, and one of the second
/// a row of the first. Over five elements the inverse of 2 is 3: the update uses the inverse of the
/// pivot and not the pivot. In a differential over three elements both signs occur: from the states
/// with one 1 to those with two.
pub fn known_matrices()
    ensures before { (degree_of hopf_block (neg_ℤ (pos 1))).matrix ≡ (2 ∷ 1 ∷ []) ∷ [] }
    ensures second { (degree_of (cancel 3 hopf_block (pivot_at (neg_ℤ (pos 2)) 0 0))
        (neg_ℤ (pos 1))).matrix ≡ (0 ∷ 1 ∷ []) ∷ [] }
    ensures first { (degree_of (cancel 3 hopf_block (pivot_at (neg_ℤ (pos 1)) 1 0))
        (neg_ℤ (pos 2))).matrix ≡ (1 ∷ 1 ∷ []) ∷ (0 ∷ 0 ∷ []) ∷ [] }
    ensures inverse { cancelled_matrix 5 (pivot_at (pos 0) 0 0) ((2 ∷ 1 ∷ []) ∷ (1 ∷ 1 ∷ []) ∷ [])
        ≡ (0 ∷ 0 ∷ []) ∷ (0 ∷ 3 ∷ []) ∷ [] }
    ensures signs { differential 3 trefoil (neg_ℤ (pos 2)) (neg_ℤ (pos 3))
        ≡ (2 ∷ 1 ∷ 0 ∷ []) ∷ (2 ∷ 0 ∷ 1 ∷ []) ∷ (0 ∷ 2 ∷ 1 ∷ []) ∷ [] }
{}

/// Plain data is a complex exactly where its test over the degrees, rows and columns that there are
/// holds.
pub fn complexes_are_tested()
    ensures { (p : ℕ) (complex : Complex) → 0 < p
        → IsTrue (is_complex p complex) ↔ IsComplex p complex }
{}

/// A cancellation keeps the number of degrees, and in each the size of the matrix, the places, and
/// the dead ones dead.
pub fn cancellations_keep_sizes_and_dead_places()
    ensures degrees { (p : ℕ) (complex : Complex) (pivot : Pivot)
        → length (cancel p complex pivot).degrees ≡ length complex.degrees }
    ensures sizes { (p : ℕ) (complex : Complex) (pivot : Pivot) (i : ℤ)
        → map length (degree_of (cancel p complex pivot) i).matrix
        ≡ map length (degree_of complex i).matrix }
    ensures places { (p : ℕ) (complex : Complex) (pivot : Pivot) (i : ℤ)
        → length (degree_of (cancel p complex pivot) i).alive ≡ length (degree_of complex i).alive }
    ensures dead { (p : ℕ) (complex : Complex) (pivot : Pivot) (i : ℤ) (place : ℕ)
        → slice_index_or (degree_of complex i).alive place true ≡ false
        → slice_index_or (degree_of (cancel p complex pivot) i).alive place true ≡ false }
{}
