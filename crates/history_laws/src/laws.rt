//! What cancellations and legal histories keep of a complex over a field, and how many pivots there
//! are to cancel. `prime_field` has the law that 2, 3, 5 and 7 give fields.

ghost use Rattle.std.specs.Prelude.{◌≡◌, ◌≢◌, ℕ, ◌+◌, ◌*◌, ◌≤◌, ℤ, pos, ◌+ℤ◌, ◌↔◌};
ghost use Rattle.std.specs.Prelude.{List, [], ◌∷◌, ◌++◌, length, true};
ghost use Rattle.kh_types.specs.Complex.{Complex, IsComplex, IsPivot, Pivot, alive_count, cancel};
ghost use Rattle.kh_types.specs.Complex.{degree_of, dimension_of, is_zero};
ghost use Rattle.kh_types.specs.History.{IsLegal, replay};
ghost use Rattle.prime_field.specs.Residues.{IsField};
ghost use Rattle.history_laws.specs.OverFour.{over_four, pivot_two};
ghost use Rattle.sparse_block.specs.Complexes.{live_places};
ghost use Rattle.history_laws.specs.RankSums.{rank_into, rank_out, rank_sum};

/// A cancellation takes one from the rank of the pivot's matrix and keeps all others, and so it
/// keeps the homology dimensions.
pub fn cancellations_keep_dimensions()
    ensures dimensions { (p : ℕ) (complex : Complex) (pivot : Pivot) (i : ℤ) → IsField p
        → IsComplex p complex → IsPivot complex pivot
        → dimension_of p (cancel p complex pivot) i ≡ dimension_of p complex i }
    ensures pivot { (p : ℕ) (complex : Complex) (pivot : Pivot) → IsField p → IsComplex p complex
        → IsPivot complex pivot → rank_out p (cancel p complex pivot) pivot.degree + 1
        ≡ rank_out p complex pivot.degree }
    ensures others { (p : ℕ) (complex : Complex) (pivot : Pivot) (i : ℤ) → IsField p
        → IsComplex p complex → IsPivot complex pivot → i ≢ pivot.degree
        → rank_out p (cancel p complex pivot) i ≡ rank_out p complex i }
    ensures sum { (p : ℕ) (complex : Complex) (pivot : Pivot) → IsField p → IsComplex p complex
        → IsPivot complex pivot
        → rank_sum p (cancel p complex pivot) + 1 ≡ rank_sum p complex }
{}

/// A cancellation kills two places: one of the pivot's degree, and one of the next.
pub fn cancellations_kill_two_places()
    ensures column { (p : ℕ) (complex : Complex) (pivot : Pivot) → IsComplex p complex
        → IsPivot complex pivot → alive_count (cancel p complex pivot) pivot.degree + 1
        ≡ alive_count complex pivot.degree }
    ensures row { (p : ℕ) (complex : Complex) (pivot : Pivot) → IsComplex p complex
        → IsPivot complex pivot
        → alive_count (cancel p complex pivot) (pivot.degree +ℤ pos 1) + 1
        ≡ alive_count complex (pivot.degree +ℤ pos 1) }
    ensures others { (p : ℕ) (complex : Complex) (pivot : Pivot) (i : ℤ) → i ≢ pivot.degree
        → i ≢ pivot.degree +ℤ pos 1
        → alive_count (cancel p complex pivot) i ≡ alive_count complex i }
    ensures all { (p : ℕ) (complex : Complex) (pivot : Pivot) → IsComplex p complex
        → IsPivot complex pivot → live_places (cancel p complex pivot) + 2 ≡ live_places complex }
{}

/// The dimensions of a complex of zeros are its places alive.
pub fn zero_complexes()
    ensures { (p : ℕ) (complex : Complex) (i : ℤ) → is_zero complex ≡ true
        → dimension_of p complex i ≡ alive_count complex i }
{}

/// A legal history leaves a complex of a complex and keeps the homology dimensions. Where it ends
/// at zero, they are the places that it leaves alive, and it has as many pivots as all ranks
/// together.
pub fn legal_histories_keep_dimensions()
    ensures complex { (p : ℕ) (complex : Complex) (history : List Pivot) → IsField p
        → IsComplex p complex → IsLegal p complex history
        → IsComplex p (replay p complex history) }
    ensures dimensions { (p : ℕ) (complex : Complex) (history : List Pivot) (i : ℤ) → IsField p
        → IsComplex p complex → IsLegal p complex history
        → dimension_of p (replay p complex history) i ≡ dimension_of p complex i }
    ensures alive { (p : ℕ) (complex : Complex) (history : List Pivot) (i : ℤ) → IsField p
        → IsComplex p complex → IsLegal p complex history
        → is_zero (replay p complex history) ≡ true
        → alive_count (replay p complex history) i ≡ dimension_of p complex i }
    ensures size { (p : ℕ) (complex : Complex) (history : List Pivot) → IsField p
        → IsComplex p complex → IsLegal p complex history
        → is_zero (replay p complex history) ≡ true → length history ≡ rank_sum p complex }
{}

/// No legal history has more pivots than all ranks together, and those that have as many are those
/// that end at zero. There is one.
pub fn histories_end_at_zero()
    ensures longest { (p : ℕ) (complex : Complex) (history : List Pivot) → IsField p
        → IsComplex p complex → IsLegal p complex history → length history ≤ rank_sum p complex }
    ensures zero { (p : ℕ) (complex : Complex) (history : List Pivot) → IsField p
        → IsComplex p complex → IsLegal p complex history
        → (is_zero (replay p complex history) ≡ true) ↔ (length history ≡ rank_sum p complex) }
    ensures one { (p : ℕ) (complex : Complex) → IsField p → IsComplex p complex
        → (history : List Pivot) × IsLegal p complex history
        × (is_zero (replay p complex history) ≡ true) }
{}

/// The ranks out of a degree and into it fit into its places alive, and the dimension is what they
/// leave. So all ranks together are at most half of all places alive.
pub fn ranks_fit_into_places()
    ensures rest { (p : ℕ) (complex : Complex) (i : ℤ) → IsField p → IsComplex p complex
        → dimension_of p complex i + rank_out p complex i + rank_into p complex i
        ≡ alive_count complex i }
    ensures half { (p : ℕ) (complex : Complex) → IsField p → IsComplex p complex
        → 2 * rank_sum p complex ≤ live_places complex }
{}

/// A history of two parts: it is legal where the first is, and the second on what the first leaves.
pub fn histories_are_put_together()
    ensures legal { (p : ℕ) (complex : Complex) (first second : List Pivot)
        → IsLegal p complex (first ++ second)
        ↔ (IsLegal p complex first × IsLegal p (replay p complex first) second) }
    ensures replayed { (p : ℕ) (complex : Complex) (first second : List Pivot)
        → replay p complex (first ++ second) ≡ replay p (replay p complex first) second }
    ensures longer { (p : ℕ) (complex : Complex) (history : List Pivot) (pivot : Pivot)
        → IsLegal p complex history → IsPivot (replay p complex history) pivot
        → IsLegal p complex (history ++ pivot ∷ []) }
{}

/// A history keeps the degrees of a complex and the number of places of each, and each pivot of a
/// legal one kills two of the places: so it has at most half as many pivots as there are places
/// alive.
pub fn histories_kill_places()
    ensures low { (p : ℕ) (complex : Complex) (history : List Pivot)
        → (replay p complex history).low ≡ complex.low }
    ensures degrees { (p : ℕ) (complex : Complex) (history : List Pivot)
        → length (replay p complex history).degrees ≡ length complex.degrees }
    ensures places { (p : ℕ) (complex : Complex) (history : List Pivot) (i : ℤ)
        → length (degree_of (replay p complex history) i).alive
        ≡ length (degree_of complex i).alive }
    ensures alive { (p : ℕ) (complex : Complex) (history : List Pivot) → IsField p
        → IsComplex p complex → IsLegal p complex history
        → live_places (replay p complex history) + 2 * length history ≡ live_places complex }
    ensures half { (p : ℕ) (complex : Complex) (history : List Pivot) → IsField p
        → IsComplex p complex → IsLegal p complex history
        → 2 * length history ≤ live_places complex }
{}

/// Inverses are needed: modulo 4, where 2 has none, the cancellation of the entry 2 leaves no
/// complex of this complex.
pub fn inverses_are_needed()
    ensures before { IsComplex 4 over_four }
    ensures pivot { IsPivot over_four pivot_two }
    ensures after { IsComplex 4 (cancel 4 over_four pivot_two) → ⊥ }
{}
