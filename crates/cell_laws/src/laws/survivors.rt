//! Survivors: what keeps them, and what they are where nothing is left, or all is level.

ghost use Rattle.std.specs.Prelude.{◌≡◌, ◌≢◌, ℕ, ◌+◌, ◌<◌, ◌≤◌, ℤ, pos, ◌+ℤ◌, ◌-ℤ◌, ◌<ℤ◌, ◌≤ℤ◌, List, length, [], ◌∷◌};
ghost use Rattle.std.specs.List.{Contains, range_with_len, sum_by};
ghost use Rattle.kh_types.specs.Residues.{HasInverses};
ghost use Rattle.cell_laws.specs.Cells.{Cells, AreComplex, cells_at, dimension_at};
ghost use Rattle.cell_laws.specs.Alike.{AreListed, AreAlike};
ghost use Rattle.cell_laws.specs.Elimination.{ArePivots, all_of, cells_left, eliminated};
ghost use Rattle.cell_laws.specs.Filtered.{AreFiltered, cells_from, lasting, survivors, unfiltered};
ghost use Rattle.cell_laws.specs.Shortest.{HaveGap, IsReduction, IsShortest};
ghost use Rattle.cell_laws.specs.LevelParts.{level_part};

/// Other names, another order, and a sign for each cell keep the survivors, and filtered complexes
/// stay so.
pub fn alike_cells_have_the_same_survivors<A, B>()
    ensures survivors { (p : ℕ) (to : A → B) (sign : A → ℕ) (first : Cells A) (second : Cells B)
        → HasInverses p → ((x y : A) → first.coefficient x y < p)
        → ((x y : B) → second.coefficient x y < p) → AreAlike p to sign first second
        → (i t : ℤ) → survivors p second i t ≡ survivors p first i t }
    ensures filtered { (p : ℕ) (to : A → B) (sign : A → ℕ) (first : Cells A) (second : Cells B)
        → ((x y : B) → second.coefficient x y < p) → AreAlike p to sign first second
        → AreFiltered p first → AreFiltered p second }
{}

/// The elimination of a family of pivots, each of them a shortest entry at its tail and at its head,
/// leaves a filtered complex, and keeps the survivors; in whatever order the cells are listed. That
/// of one entry keeps them too.
pub fn eliminations_keep_survivors<A>()
    ensures filtered { (p : ℕ) (cells : Cells A) (pairs : List (A × A)) (rest : List A)
        → HasInverses p → AreFiltered p cells → AreListed (λ (x : A). x) cells.list (all_of pairs rest)
        → ArePivots cells.coefficient pairs
        → ((pair : A × A) → Contains pairs pair → IsShortest cells pair)
        → AreFiltered p (cells_left p cells pairs rest) }
    ensures survivors { (p : ℕ) (cells : Cells A) (pairs : List (A × A)) (rest : List A)
        → HasInverses p → AreFiltered p cells → AreListed (λ (x : A). x) cells.list (all_of pairs rest)
        → ArePivots cells.coefficient pairs
        → ((pair : A × A) → Contains pairs pair → IsShortest cells pair)
        → (i t : ℤ) → survivors p (cells_left p cells pairs rest) i t ≡ survivors p cells i t }
    ensures entry { (p : ℕ) (cells : Cells A) (tail head : A) (rest : List A)
        → HasInverses p → AreFiltered p cells
        → AreListed (λ (x : A). x) cells.list (tail ∷ head ∷ rest)
        → cells.coefficient tail head ≢ 0 → IsShortest cells (tail, head) → (i t : ℤ)
        → survivors p (cells_left p cells ((tail, head) ∷ []) rest) i t ≡ survivors p cells i t }
{}

/// Which entries are shortest: those that lead up by a gap that no entry falls short of; so in a
/// filtered complex those between equal quantum degrees.
pub fn entries_of_the_least_gap_are_shortest<A>()
    ensures gap { (cells : Cells A) (gap : ℤ) (pair : A × A) → HaveGap cells gap
        → Contains cells.list pair.0 → Contains cells.list pair.1
        → cells.quantum pair.1 -ℤ cells.quantum pair.0 ≡ gap → IsShortest cells pair }
    ensures level { (p : ℕ) (cells : Cells A) (pair : A × A) → AreFiltered p cells
        → Contains cells.list pair.0 → Contains cells.list pair.1
        → cells.quantum pair.1 ≡ cells.quantum pair.0 → IsShortest cells pair }
    ensures filtered { (p : ℕ) (cells : Cells A) → AreFiltered p cells → HaveGap cells (pos 0) }
{}

/// The elimination of a family of pivots of the least gap leaves no smaller gap; and where no entry
/// of that gap is left, none is below the next gap.
pub fn eliminations_keep_gaps<A>()
    ensures kept { (p : ℕ) (cells : Cells A) (gap : ℤ) (pairs : List (A × A)) (rest : List A)
        → AreListed (λ (x : A). x) cells.list (all_of pairs rest) → HaveGap cells gap
        → ((pair : A × A) → Contains pairs pair
        → cells.quantum pair.1 -ℤ cells.quantum pair.0 ≡ gap)
        → HaveGap (cells_left p cells pairs rest) gap }
    ensures next { (cells : Cells A) (gap : ℤ) → HaveGap cells gap
        → ((x y : A) → Contains cells.list x → Contains cells.list y → cells.coefficient x y ≢ 0
        → cells.quantum y -ℤ cells.quantum x ≢ gap) → HaveGap cells (gap +ℤ pos 1) }
{}

/// A complex whose coefficients keep the quantum degree is filtered; and a filtered complex whose
/// quantum degrees are forgotten is a complex.
pub fn complexes_are_filtered<A>()
    ensures level { (p : ℕ) (cells : Cells A) → AreComplex p cells → AreFiltered p cells }
    ensures unfiltered { (p : ℕ) (cells : Cells A) → AreFiltered p cells → AreComplex p (unfiltered cells) }
{}

/// Where all coefficients keep the quantum degree, what lasts is the homology; so the survivors from
/// t on are the dimensions at all quantum degrees from t on together: of n degrees, where no cell
/// lies beyond.
pub fn survivors_of_level_cells<A>()
    ensures sums { (p : ℕ) (cells : Cells A) → HasInverses p → AreComplex p cells
        → (i t : ℤ) (n : ℕ) → ((x : A) → Contains cells.list x → cells.quantum x <ℤ (t +ℤ pos n))
        → survivors p cells i t
        ≡ sum_by (λ k. dimension_at p cells i (t +ℤ pos k)) (range_with_len 0 n) }
    ensures lasting { (p : ℕ) (cells : Cells A) → HasInverses p → AreComplex p cells
        → (i j : ℤ) → lasting p cells i j ≡ dimension_at p cells i j }
{}

/// Where no coefficient is left other than 0, the survivors are the cells.
pub fn survivors_count_last_cells<A>()
    ensures { (p : ℕ) (cells : Cells A) → HasInverses p → ((x y : A) → cells.coefficient x y < p)
        → ((x y : A) → Contains cells.list x → Contains cells.list y → cells.coefficient x y ≡ 0)
        → (i t : ℤ) → survivors p cells i t ≡ length (cells_from cells i t) }
{}

/// Below all cells the survivors are the homology of the complex whose quantum degrees are
/// forgotten, above all cells there are none, and on the way they fall: they are what lasts from t
/// on, of n degrees, where no cell lies beyond.
pub fn survivors_fall_to_none<A>()
    ensures all { (p : ℕ) (cells : Cells A) → HasInverses p → ((x y : A) → cells.coefficient x y < p)
        → (i t : ℤ) → ((x : A) → Contains cells.list x → t ≤ℤ cells.quantum x)
        → survivors p cells i t ≡ dimension_at p (unfiltered cells) i (pos 0) }
    ensures none { (p : ℕ) (cells : Cells A) → HasInverses p → ((x y : A) → cells.coefficient x y < p)
        → (i t : ℤ) → ((x : A) → Contains cells.list x → cells.quantum x <ℤ t)
        → survivors p cells i t ≡ 0 }
    ensures fall { (p : ℕ) (cells : Cells A) → HasInverses p → AreFiltered p cells
        → (i t : ℤ) → survivors p cells i (t +ℤ pos 1) ≤ survivors p cells i t }
    ensures sums { (p : ℕ) (cells : Cells A) → HasInverses p → AreFiltered p cells
        → (i t : ℤ) (n : ℕ) → ((x : A) → Contains cells.list x → cells.quantum x <ℤ (t +ℤ pos n))
        → survivors p cells i t
        ≡ sum_by (λ k. lasting p cells i (t +ℤ pos k)) (range_with_len 0 n) }
{}

/// Eliminations of shortest entries reduce each filtered complex to cells without a coefficient;
/// and whichever do, the cells that are left count the survivors and what lasts.
pub fn reductions_count_survivors<A>()
    ensures some { (p : ℕ) (cells : Cells A) → HasInverses p → AreFiltered p cells
        → (last : Cells A) × IsReduction p cells last }
    ensures survivors { (p : ℕ) (cells last : Cells A) → HasInverses p → AreFiltered p cells
        → IsReduction p cells last
        → (i t : ℤ) → survivors p cells i t ≡ length (cells_from last i t) }
    ensures lasting { (p : ℕ) (cells last : Cells A) → HasInverses p → AreFiltered p cells
        → IsReduction p cells last
        → (i j : ℤ) → lasting p cells i j ≡ length (cells_at last i j) }
{}

/// The part of a filtered complex that keeps the quantum degree is a complex; the dimensions of
/// any cells are those of this part. The elimination of a family of pivots between equal quantum
/// degrees is that of this part there, and keeps its dimensions.
pub fn level_parts_are_complexes<A>()
    ensures complex { (p : ℕ) (cells : Cells A)
        → AreFiltered p cells → AreComplex p (level_part cells) }
    ensures dimensions { (p : ℕ) (cells : Cells A) (i j : ℤ)
        → dimension_at p (level_part cells) i j ≡ dimension_at p cells i j }
    ensures left { (p : ℕ) (cells : Cells A) (pairs : List (A × A)) (rest : List A)
        → AreFiltered p cells → AreListed (λ (x : A). x) cells.list (all_of pairs rest)
        → ((pair : A × A) → Contains pairs pair → cells.quantum pair.1 ≡ cells.quantum pair.0)
        → (x y : A) → Contains cells.list x → Contains cells.list y
        → cells.quantum x ≡ cells.quantum y
        → eliminated p (level_part cells).coefficient pairs x y
        ≡ eliminated p cells.coefficient pairs x y }
    ensures eliminations { (p : ℕ) (cells : Cells A) (pairs : List (A × A)) (rest : List A)
        → HasInverses p → AreFiltered p cells
        → AreListed (λ (x : A). x) cells.list (all_of pairs rest)
        → ArePivots cells.coefficient pairs
        → ((pair : A × A) → Contains pairs pair → cells.quantum pair.1 ≡ cells.quantum pair.0)
        → (i j : ℤ)
        → dimension_at p (cells_left p cells pairs rest) i j ≡ dimension_at p cells i j }
{}
