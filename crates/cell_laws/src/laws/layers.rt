//! The elimination of an entry between objects.

ghost use Rattle.std.specs.Prelude.{◌≡◌, ℕ, ℤ, List, ◌∷◌};
ghost use Rattle.std.specs.List.{Contains};
ghost use Rattle.kh_types.specs.Residues.{HasInverses};
ghost use Rattle.cell_laws.specs.Alike.{AreListed};
ghost use Rattle.cell_laws.specs.Cells.{AreComplex, dimension_at};
ghost use Rattle.cell_laws.specs.Layers.{IsTimesIdentity, Layers, cells_of, layers_left};

/// The elimination of an entry between two objects that is a number other than 0 times the identity
/// leaves a complex, and keeps the dimensions: it is the elimination of all its pairs of cells, and
/// the ways back lie within a state.
pub fn entries_between_objects_are_eliminated()
    ensures complex { (p : ℕ) (layers : Layers) (tail head c : ℕ) (rest : List ℕ) → HasInverses p
        → AreComplex p (cells_of layers)
        → AreListed (λ (object : ℕ). object) layers.objects (tail ∷ head ∷ rest)
        → (Contains rest tail → ⊥) → (Contains rest head → ⊥) → IsTimesIdentity layers tail head c
        → AreComplex p (cells_of (layers_left p layers tail head c rest)) }
    ensures dimensions { (p : ℕ) (layers : Layers) (tail head c : ℕ) (rest : List ℕ) → HasInverses p
        → AreComplex p (cells_of layers)
        → AreListed (λ (object : ℕ). object) layers.objects (tail ∷ head ∷ rest)
        → (Contains rest tail → ⊥) → (Contains rest head → ⊥) → IsTimesIdentity layers tail head c
        → (i j : ℤ) → dimension_at p (cells_of (layers_left p layers tail head c rest)) i j
        ≡ dimension_at p (cells_of layers) i j }
{}
