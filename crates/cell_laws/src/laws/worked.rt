//! A worked elimination.

ghost use Rattle.std.specs.Prelude.{◌≡◌, pos, [], ◌∷◌};
ghost use Rattle.cell_laws.specs.Cells.{dimension_at, differential_at};
ghost use Rattle.cell_laws.specs.Elimination.{ArePivots, cells_left, eliminated};
ghost use Rattle.cell_laws.specs.WorkedCells.{four_cells, four_coefficients};

/// The matrix has the rows 2 1 and 1 1. Modulo 3 the inverse of 2 is 2, so the pivot 2 leaves
/// 1 - 1 * 2 * 1, which is 2 modulo 3; the rank is 2, and nothing is left.
pub fn known_eliminations()
    ensures matrix { differential_at four_cells (pos 0) (pos 0) ≡ (2 ∷ 1 ∷ []) ∷ (1 ∷ 1 ∷ []) ∷ [] }
    ensures pivots { ArePivots four_coefficients ((0, 2) ∷ []) }
    ensures left { eliminated 3 four_coefficients ((0, 2) ∷ []) 1 3 ≡ 2 }
    ensures before { dimension_at 3 four_cells (pos 1) (pos 0) ≡ 0 }
    ensures after { dimension_at 3 (cells_left 3 four_cells ((0, 2) ∷ []) (1 ∷ 3 ∷ [])) (pos 1) (pos 0) ≡ 0 }
{}
