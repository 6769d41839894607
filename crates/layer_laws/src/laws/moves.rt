//! The eliminations of the three moves.

ghost use Rattle.std.specs.Prelude.{◌≡◌, ℕ, ◌<◌, ℤ, true};
ghost use Rattle.kh_types.specs.Residues.{HasInverses};
ghost use Rattle.cell_laws.specs.Cells.{dimension_at};
ghost use Rattle.cell_laws.specs.Layers.{Layers, cells_of};
ghost use Rattle.layer_laws.specs.Cuts.{IsCut, IsLikeOne};
ghost use Rattle.layer_laws.specs.Slid.{AreFiveLeft, IsMeasured, is_near, kind_after, kind_before, kind_of_bigon};

/// A kink: of one inner crossing the 0-smoothing closes a circle, or the 1-smoothing; what is left
/// is the closing state with the circle labelled v-, or v+.
pub fn kinks_are_eliminated()
    ensures first { (p : ℕ) (count : ℕ → ℕ → ℕ) (saddle : ℕ → ℕ → ℕ → ℕ → ℕ → ℕ) (level : ℕ → ℕ)
        (layers single : Layers) → HasInverses p → IsCut p 1 0 (λ t. 0) count saddle layers
        → IsLikeOne p 2 0 level layers single
        → (i j : ℤ) → dimension_at p (cells_of single) i j ≡ dimension_at p (cells_of layers) i j }
    ensures second { (p : ℕ) (count : ℕ → ℕ → ℕ) (saddle : ℕ → ℕ → ℕ → ℕ → ℕ → ℕ) (level : ℕ → ℕ)
        (layers single : Layers) → HasInverses p → IsCut p 1 1 (λ t. 0) count saddle layers
        → IsLikeOne p 1 1 level layers single
        → (i j : ℤ) → dimension_at p (cells_of single) i j ≡ dimension_at p (cells_of layers) i j }
{}

/// A bigon: of two inner crossings the state 1 closes a circle, or the state 2; what is left is the
/// other of these two states.
pub fn bigons_are_eliminated()
    ensures first { (p : ℕ) (count : ℕ → ℕ → ℕ) (saddle : ℕ → ℕ → ℕ → ℕ → ℕ → ℕ) (level : ℕ → ℕ)
        (layers single : Layers) → HasInverses p → IsCut p 2 1 (kind_of_bigon 1) count saddle layers
        → IsLikeOne p 2 1 level layers single
        → (i j : ℤ) → dimension_at p (cells_of single) i j ≡ dimension_at p (cells_of layers) i j }
    ensures second { (p : ℕ) (count : ℕ → ℕ → ℕ) (saddle : ℕ → ℕ → ℕ → ℕ → ℕ → ℕ) (level : ℕ → ℕ)
        (layers single : Layers) → HasInverses p → IsCut p 2 2 (kind_of_bigon 2) count saddle layers
        → IsLikeOne p 1 1 level layers single
        → (i j : ℤ) → dimension_at p (cells_of single) i j ≡ dimension_at p (cells_of layers) i j }
{}

/// Of three inner crossings, where one state closes a circle, neither that of all 0-smoothings
/// nor that of all 1-smoothings, and its neighbours see what it sees, five objects are left:
/// coefficients along edges are as they were, and there is one more along a way back, with the
/// opposite sign.
pub fn five_objects_are_left()
    ensures { (p closing : ℕ) (kind : ℕ → ℕ) (count : ℕ → ℕ → ℕ) (saddle : ℕ → ℕ → ℕ → ℕ → ℕ → ℕ)
        (layers : Layers) → HasInverses p → 0 < closing → closing < 7
        → ((t : ℕ) → t < 8 → is_near closing t ≡ true → kind t ≡ kind closing)
        → IsCut p 3 closing kind count saddle layers
        → (left : Layers) × AreFiveLeft p closing kind saddle layers left }
{}

/// A slide: of three inner crossings one state closes a circle, neither that of all 0-smoothings
/// nor that of all 1-smoothings. Before and after, the states see what their kinds say.
pub fn slides_keep_the_dimensions()
    ensures { (p closing : ℕ) (count : ℕ → ℕ → ℕ) (saddle : ℕ → ℕ → ℕ → ℕ → ℕ → ℕ)
        (height : ℕ → ℕ → ℤ) (weight : ℕ → ℕ → ℕ → ℕ → ℤ) (between : ℕ → ℕ → ℕ → ℕ → ℕ → ℕ → ℕ)
        (first second : Layers) → HasInverses p → 0 < closing → closing < 7
        → second.states ≡ first.states
        → IsCut p 3 closing (kind_before closing) count saddle first
        → IsMeasured p closing (kind_before closing) height weight between first
        → IsCut p 3 closing (kind_after closing) count saddle second
        → IsMeasured p closing (kind_after closing) height weight between second
        → (i j : ℤ) → dimension_at p (cells_of second) i j ≡ dimension_at p (cells_of first) i j }
{}
