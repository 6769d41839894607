//! Layers under other numbers of objects.

ghost use Rattle.std.specs.Prelude.{◌≡◌, ℕ, ℤ};
ghost use Rattle.kh_types.specs.Residues.{HasInverses};
ghost use Rattle.cell_laws.specs.Cells.{AreComplex, dimension_at};
ghost use Rattle.cell_laws.specs.Layers.{Layers, cells_of};
ghost use Rattle.layer_laws.specs.Renamed.{AreRenamed};

/// Layers whose objects correspond, with the same labels, degrees and coefficients up to a sign for
/// each object at each outer state, have the same dimensions.
pub fn renamed_layers_have_the_same_dimensions()
    ensures { (p : ℕ) (to : ℕ → ℕ) (sign : ℕ → ℕ → ℕ) (first second : Layers) → HasInverses p
        → AreComplex p (cells_of first) → AreComplex p (cells_of second)
        → AreRenamed p to sign first second
        → (i j : ℤ) → dimension_at p (cells_of second) i j ≡ dimension_at p (cells_of first) i j }
{}
