//! Worked survivors.

ghost use Rattle.std.specs.Prelude.{◌≡◌, pos, [], ◌∷◌};
ghost use Rattle.cell_laws.specs.Elimination.{cells_left};
ghost use Rattle.cell_laws.specs.Filtered.{lasting, survivors};
ghost use Rattle.cell_laws.specs.WorkedFilters.{rising_cells};

/// The cells 0 and 1, at 1 and 3, both lead to the sum of the cells 2 and 3, at 5 and 7. The
/// difference of 0 and 1 is a cycle, but there is none from 3 on: one class of degree 0 lasts up to
/// 1. The sum of 2 and 3 is a boundary, so that cell 3 alone stands for what there is in degree 1:
/// one class lasts up to 7.
pub fn known_survivors()
    ensures one { survivors 3 rising_cells (pos 0) (pos 1) ≡ 1 }
    ensures three { survivors 3 rising_cells (pos 0) (pos 3) ≡ 0 }
    ensures seven { survivors 3 rising_cells (pos 1) (pos 7) ≡ 1 }
    ensures low { lasting 3 rising_cells (pos 0) (pos 1) ≡ 1 }
    ensures high { lasting 3 rising_cells (pos 1) (pos 7) ≡ 1 }
{}

/// The entry from 1 to 2 is a shortest one, and to eliminate it keeps both classes. That from 0 to 2
/// is not, as 1 is higher than 0: without it a class would last up to 3. Nor is that from 1 to 3, as
/// 2 is lower than 3: without it no class would last up to 7.
pub fn known_eliminations()
    ensures low { lasting 3 (cells_left 3 rising_cells ((1, 2) ∷ []) (0 ∷ 3 ∷ [])) (pos 0) (pos 1) ≡ 1 }
    ensures high { lasting 3 (cells_left 3 rising_cells ((1, 2) ∷ []) (0 ∷ 3 ∷ [])) (pos 1) (pos 7) ≡ 1 }
    ensures not_into { survivors 3 (cells_left 3 rising_cells ((0, 2) ∷ []) (1 ∷ 3 ∷ [])) (pos 0) (pos 3) ≡ 1 }
    ensures not_out { survivors 3 (cells_left 3 rising_cells ((1, 3) ∷ []) (0 ∷ 2 ∷ [])) (pos 1) (pos 7) ≡ 0 }
{}
