//! The eliminations of the three moves.

ghost use Rattle.std.specs.Prelude.{◌≡◌, ℕ, ◌<◌, ℤ};
ghost use Rattle.kh_types.specs.Residues.{HasInverses};
ghost use Rattle.cell_laws.specs.Layers.{Layers, cells_of};
ghost use Rattle.cell_laws.specs.Filtered.{AreFiltered, survivors};
ghost use Rattle.layer_laws.specs.Renamed.{AreRenamed};
ghost use Rattle.layer_laws.specs.Slid.{IsMeasured, kind_after, kind_before, kind_of_bigon};
ghost use Rattle.layer_laws.specs.FilteredCuts.{IsFilteredCut, IsFilteredLike};

/// Filtered layers whose objects correspond, with the same labels, degrees and coefficients up to
/// a sign for each object at each outer state, have the same survivors.
pub fn renamed_layers_have_the_same_survivors()
    ensures { (p : ℕ) (to : ℕ → ℕ) (sign : ℕ → ℕ → ℕ) (first second : Layers) → HasInverses p
        → AreFiltered p (cells_of first) → AreFiltered p (cells_of second)
        → AreRenamed p to sign first second
        → (i t : ℤ) → survivors p (cells_of second) i t ≡ survivors p (cells_of first) i t }
{}

/// A kink: of one inner crossing the 0-smoothing closes a circle, or the 1-smoothing; what is left
/// is the closing state with the circle labelled v-, or v+.
pub fn kinks_keep_survivors()
    ensures first { (p : ℕ) (count : ℕ → ℕ → ℕ) (saddle : ℕ → ℕ → ℕ → ℕ → ℕ → ℕ) (level : ℕ → ℕ)
        (layers single : Layers) → HasInverses p
        → IsFilteredCut p 1 0 (λ t. 0) count saddle layers → IsFilteredLike p 2 0 level layers single
        → (i t : ℤ) → survivors p (cells_of single) i t ≡ survivors p (cells_of layers) i t }
    ensures second { (p : ℕ) (count : ℕ → ℕ → ℕ) (saddle : ℕ → ℕ → ℕ → ℕ → ℕ → ℕ) (level : ℕ → ℕ)
        (layers single : Layers) → HasInverses p
        → IsFilteredCut p 1 1 (λ t. 0) count saddle layers → IsFilteredLike p 1 1 level layers single
        → (i t : ℤ) → survivors p (cells_of single) i t ≡ survivors p (cells_of layers) i t }
{}

/// A bigon: of two inner crossings the state 1 closes a circle, or the state 2; what is left is the
/// other of these two states.
pub fn bigons_keep_survivors()
    ensures first { (p : ℕ) (count : ℕ → ℕ → ℕ) (saddle : ℕ → ℕ → ℕ → ℕ → ℕ → ℕ) (level : ℕ → ℕ)
        (layers single : Layers) → HasInverses p
        → IsFilteredCut p 2 1 (kind_of_bigon 1) count saddle layers
        → IsFilteredLike p 2 1 level layers single
        → (i t : ℤ) → survivors p (cells_of single) i t ≡ survivors p (cells_of layers) i t }
    ensures second { (p : ℕ) (count : ℕ → ℕ → ℕ) (saddle : ℕ → ℕ → ℕ → ℕ → ℕ → ℕ) (level : ℕ → ℕ)
        (layers single : Layers) → HasInverses p
        → IsFilteredCut p 2 2 (kind_of_bigon 2) count saddle layers
        → IsFilteredLike p 1 1 level layers single
        → (i t : ℤ) → survivors p (cells_of single) i t ≡ survivors p (cells_of layers) i t }
{}

/// A slide: of three inner crossings one state closes a circle, neither that of all 0-smoothings
/// nor that of all 1-smoothings. Before and after, the states see what their kinds say.
pub fn slides_keep_survivors()
    ensures { (p closing : ℕ) (count : ℕ → ℕ → ℕ) (saddle : ℕ → ℕ → ℕ → ℕ → ℕ → ℕ)
        (height : ℕ → ℕ → ℤ) (weight : ℕ → ℕ → ℕ → ℕ → ℤ) (between : ℕ → ℕ → ℕ → ℕ → ℕ → ℕ → ℕ)
        (first second : Layers) → HasInverses p → 0 < closing → closing < 7
        → second.states ≡ first.states
        → IsFilteredCut p 3 closing (kind_before closing) count saddle first
        → IsMeasured p closing (kind_before closing) height weight between first
        → IsFilteredCut p 3 closing (kind_after closing) count saddle second
        → IsMeasured p closing (kind_after closing) height weight between second
        → (i t : ℤ) → survivors p (cells_of second) i t ≡ survivors p (cells_of first) i t }
{}
