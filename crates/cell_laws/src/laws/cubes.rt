//! The cube of a code as cells.

ghost use Rattle.std.specs.Prelude.{◌≡◌, ℕ, ℤ, IsTrue, ◌<◌};
ghost use Rattle.kh_types.specs.Acceptance.{accepted};
ghost use Rattle.kh_types.specs.Code.{Code};
ghost use Rattle.kh_types.specs.Directions.{plus_count, minus_count};
ghost use Rattle.kh_types.specs.Table.{dimension};
ghost use Rattle.cell_laws.specs.Cells.{AreComplex, dimension_at};
ghost use Rattle.cell_laws.specs.Cubes.{cube_of};

/// The dimensions of a code are those of its cube; the cube of an accepted code is a complex, with
/// any numbers of positive and negative crossings.
pub fn cubes_have_the_dimensions()
    ensures dimensions { (p : ℕ) (code : Code) (i j : ℤ)
        → dimension p code i j
        ≡ dimension_at p (cube_of p code (plus_count code.crossings) (minus_count code.crossings)) i j }
    ensures complex { (p : ℕ) (code : Code) (plus minus : ℕ) → 1 < p → IsTrue (accepted code)
        → AreComplex p (cube_of p code plus minus) }
{}
