//! Complexes that split in two parts.

ghost use Rattle.std.specs.Prelude.{◌≡◌, ℕ, ◌+◌, ◌≤◌, ℤ, pos, ◌-ℤ◌, length, Bool};
ghost use Rattle.kh_types.specs.Rank.{rank};
ghost use Rattle.kh_types.specs.Residues.{HasInverses};
ghost use Rattle.cell_laws.specs.Cells.{AreComplex, Cells, cells_at, differential_at, dimension_at};
ghost use Rattle.split_laws.specs.Splits.{HasHalves, Splits, fails, part_of};

/// The ranks out of the cells of a degree and into them are together at most their number.
pub fn ranks_fit_into_cells<A>()
    ensures { (p : ℕ) (cells : Cells A) → HasInverses p → AreComplex p cells → (i j : ℤ)
        → rank p (differential_at cells i j) + rank p (differential_at cells (i -ℤ pos 1) j)
        ≤ length (cells_at cells i j) }
{}

/// The dimensions of a complex that splits are the sums of those of its two parts, which are
/// complexes.
pub fn split_complexes_add_dimensions<A>()
    ensures upper { (p : ℕ) (cells : Cells A) (lower : A → Bool) (added : A → A → ℕ) → HasInverses p
        → AreComplex p cells → Splits p cells lower added
        → AreComplex p (part_of cells (fails lower)) }
    ensures lower { (p : ℕ) (cells : Cells A) (lower : A → Bool) (added : A → A → ℕ) → HasInverses p
        → AreComplex p cells → Splits p cells lower added → AreComplex p (part_of cells lower) }
    ensures dimensions { (p : ℕ) (cells : Cells A) (lower : A → Bool) (added : A → A → ℕ)
        → HasInverses p → AreComplex p cells → Splits p cells lower added → (i j : ℤ)
        → dimension_at p cells i j
        ≡ dimension_at p (part_of cells (fails lower)) i j
        + dimension_at p (part_of cells lower) i j }
{}

/// A complex modulo 2 in two halves has the dimensions of its lower half twice: at a degree, and at
/// the quantum degree 2 below it.
pub fn halves_double_dimensions<A>()
    ensures { (cells : Cells A) (lower : A → Bool) (down up : A → A) (turns : A → A → ℕ)
        → AreComplex 2 cells → HasHalves cells lower down up turns → (i j : ℤ)
        → dimension_at 2 cells i j
        ≡ dimension_at 2 (part_of cells lower) i (j -ℤ pos 2)
        + dimension_at 2 (part_of cells lower) i j }
{}
