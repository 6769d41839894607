//! Complexes up to names and signs, and elimination.

ghost use Rattle.std.specs.Prelude.{◌≡◌, ◌≢◌, ℕ, ◌<◌, ℤ, List, length, slice_index_or, Bool, false};
ghost use Rattle.std.specs.List.{Contains, filter};
ghost use Rattle.kh_types.specs.Residues.{HasInverses};
ghost use Rattle.cell_laws.specs.Cells.{Cells, AreComplex, cells_at, dimension_at};
ghost use Rattle.cell_laws.specs.Alike.{AreListed, AreMatched, AreAlike, HasNoDoubles};
ghost use Rattle.cell_laws.specs.Elimination.{ArePivots, all_of, cells_left, eliminated, way_back};

/// Two lists without doubles whose elements correspond are one another's up to order and names.
pub fn matched_lists_are_listed<A, B>()
    ensures { (to : A → B) (back : B → A) (first : List A) (second : List B)
        → AreMatched to back first second → AreListed to first second }
{}

/// Other names, another order, and a sign for each cell keep the dimensions.
pub fn alike_cells_have_the_same_dimensions<A, B>()
    ensures { (p : ℕ) (to : A → B) (sign : A → ℕ) (first : Cells A) (second : Cells B)
        → HasInverses p → ((x y : A) → first.coefficient x y < p)
        → ((x y : B) → second.coefficient x y < p) → AreAlike p to sign first second
        → (i j : ℤ) → dimension_at p second i j ≡ dimension_at p first i j }
{}

/// And they are complexes together.
pub fn alike_cells_are_complexes_together<A, B>()
    ensures { (p : ℕ) (to : A → B) (sign : A → ℕ) (first : Cells A) (second : Cells B)
        → ((x y : B) → second.coefficient x y < p) → AreAlike p to sign first second
        → AreComplex p first → AreComplex p second }
{}

/// A family of pivots by places: from the tail at one place to the head at another the coefficient
/// is 0; or by elements, where none stands twice.
pub fn pivots_by_places<A>()
    ensures places { (coefficient : A → A → ℕ) (pairs : List (A × A))
        → ((k : ℕ) (d : A × A) → k < length pairs
        → coefficient (slice_index_or pairs k d).0 (slice_index_or pairs k d).1 ≢ 0)
        → ((k l : ℕ) (d : A × A) → k < length pairs → l < length pairs → k ≢ l
        → coefficient (slice_index_or pairs k d).0 (slice_index_or pairs l d).1 ≡ 0)
        → ArePivots coefficient pairs }
    ensures once { (coefficient : A → A → ℕ) (pairs : List (A × A)) → HasNoDoubles pairs
        → ((pair : A × A) → Contains pairs pair → coefficient pair.0 pair.1 ≢ 0)
        → ((pair other : A × A) → Contains pairs pair → Contains pairs other → pair ≢ other
        → coefficient pair.0 other.1 ≡ 0) → ArePivots coefficient pairs }
{}

/// The elimination of a family of pivots leaves a complex, and keeps the dimensions; in whatever
/// order the cells are listed.
pub fn eliminations_keep_dimensions<A>()
    ensures complex { (p : ℕ) (cells : Cells A) (pairs : List (A × A)) (rest : List A)
        → HasInverses p → AreComplex p cells → AreListed (λ (x : A). x) cells.list (all_of pairs rest)
        → ArePivots cells.coefficient pairs → AreComplex p (cells_left p cells pairs rest) }
    ensures dimensions { (p : ℕ) (cells : Cells A) (pairs : List (A × A)) (rest : List A)
        → HasInverses p → AreComplex p cells → AreListed (λ (x : A). x) cells.list (all_of pairs rest)
        → ArePivots cells.coefficient pairs → (i j : ℤ)
        → dimension_at p (cells_left p cells pairs rest) i j ≡ dimension_at p cells i j }
{}

/// Ways back that are 0 may be left out.
pub fn ways_that_count<A>()
    ensures { (p : ℕ) (coefficient : A → A → ℕ) (test : A × A → Bool) (pairs : List (A × A)) (x y : A)
        → ((pair : A × A) → Contains pairs pair → test pair ≡ false
        → way_back p coefficient x y pair ≡ 0)
        → eliminated p coefficient (filter test pairs) x y ≡ eliminated p coefficient pairs x y }
{}

/// Cells without a differential are counted.
pub fn cells_without_a_differential<A>()
    ensures { (p : ℕ) (cells : Cells A) → HasInverses p → ((x y : A) → cells.coefficient x y < p)
        → ((x y : A) → Contains cells.list x → Contains cells.list y → cells.coefficient x y ≡ 0)
        → (i j : ℤ) → dimension_at p cells i j ≡ length (cells_at cells i j) }
{}
