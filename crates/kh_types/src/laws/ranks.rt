//! What does not change a rank.

ghost use Rattle.std.specs.Prelude.{◌≡◌, ℕ, List, ◌∷◌, All};
ghost use Rattle.kh_types.specs.Rank.{rank};

/// Rows of zeros do not count.
pub fn rows_of_zeros_do_not_count()
    ensures { (p : ℕ) (zeros : List ℕ) (rows : List (List ℕ))
        → All (λ x. x ≡ 0) zeros → rank p (zeros ∷ rows) ≡ rank p rows }
{}
