//! The elimination of an entry between objects.

ghost use Rattle.std.specs.Prelude.{◌≡◌, ℕ, ◌<◌, ℤ, List, ◌∷◌};
ghost use Rattle.std.specs.List.{Contains};
ghost use Rattle.kh_types.specs.Residues.{HasInverses};
ghost use Rattle.cell_laws.specs.Alike.{AreListed};
ghost use Rattle.cell_laws.specs.Layers.{IsTimesIdentity, Layers, cells_of, layer_of, layers_left};
ghost use Rattle.cell_laws.specs.Filtered.{AreFiltered, survivors};
ghost use Rattle.cell_laws.specs.Shortest.{IsShortest};

/// The elimination of an entry between two objects that is a number other than 0 times the identity,
/// and a shortest entry at each state and label, leaves a filtered complex and keeps the survivors.
pub fn entries_between_objects_keep_survivors()
    ensures filtered { (p : ℕ) (layers : Layers) (tail head c : ℕ) (rest : List ℕ) → HasInverses p
        → AreFiltered p (cells_of layers)
        → AreListed (λ (object : ℕ). object) layers.objects (tail ∷ head ∷ rest)
        → (Contains rest tail → ⊥) → (Contains rest head → ⊥) → IsTimesIdentity layers tail head c
        → ((state label : ℕ) → state < layers.states → label < layers.labels tail state
        → IsShortest (cells_of layers) (layer_of tail state label, layer_of head state label))
        → AreFiltered p (cells_of (layers_left p layers tail head c rest)) }
    ensures survivors { (p : ℕ) (layers : Layers) (tail head c : ℕ) (rest : List ℕ) → HasInverses p
        → AreFiltered p (cells_of layers)
        → AreListed (λ (object : ℕ). object) layers.objects (tail ∷ head ∷ rest)
        → (Contains rest tail → ⊥) → (Contains rest head → ⊥) → IsTimesIdentity layers tail head c
        → ((state label : ℕ) → state < layers.states → label < layers.labels tail state
        → IsShortest (cells_of layers) (layer_of tail state label, layer_of head state label))
        → (i t : ℤ) → survivors p (cells_of (layers_left p layers tail head c rest)) i t
        ≡ survivors p (cells_of layers) i t }
{}
