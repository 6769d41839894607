//! What the moves keep: the survivors of the deformed cube, and so homology, which is Khovanov's
//! theorem, for the moves of the program.

ghost use Rattle.std.specs.Prelude.{ℕ, ℤ, pos, ◌+ℤ◌, Bool, ◌≡◌, ◌-◌, ◌^◌, ◌<◌, IsTrue, Ok};
ghost use Rattle.kh_types.specs.Acceptance.{accepted};
ghost use Rattle.kh_types.specs.Code.{Code};
ghost use Rattle.kh_types.specs.Residues.{HasInverses};
ghost use Rattle.kh_types.specs.Table.{dimension, table};
ghost use Rattle.prime_field.specs.Residues.{IsSmallPrime};
ghost use Rattle.square_laws.specs.Deformed.{opposite};
ghost use Rattle.cell_laws.specs.Cells.{AreComplex};
ghost use Rattle.cell_laws.specs.Filtered.{AreFiltered};
ghost use Rattle.cell_laws.specs.Layers.{cells_of};
ghost use Rattle.diagram_moves.specs.Moved.{moved};
ghost use Rattle.diagram_moves.specs.declared.change.Move.{Move};
ghost use Rattle.layer_laws.specs.Cuts.{IsCut};
ghost use Rattle.layer_laws.specs.FilteredCuts.{IsFilteredCut};
ghost use Rattle.view_laws.specs.ViewLayers.{view_layers};
ghost use Rattle.view_laws.specs.Partitions.{deformed_saddle_number, saddle_number, seen_count};
ghost use Rattle.view_laws.specs.Views.{HasCircles, View};
ghost use Rattle.link_algebra.specs.Mirrors.{reversal_of};
ghost use Rattle.link_laws.specs.CodeSurvivors.{code_survivors};
ghost use Rattle.link_laws.specs.Links.{HasOtherNumbers, HasOtherOrder};
ghost use Rattle.link_laws.specs.SeenBy.{IsSeenBy};

/// The layers of a view by which one circle closes at one inner state, and whose inner states have
/// kinds, are cut, whatever h is; with h = 0 the saddles between them are the plain ones.
pub fn views_are_cut()
    ensures deformed { (p h : ℕ) (code : Code) (plus minus : ℕ) (view : View) (closing : ℕ)
        (kind : ℕ → ℕ) (relation : ℕ → ℕ → ℕ → ℕ → Bool) → IsSeenBy code view closing kind relation
        → HasCircles code → 1 < p → AreFiltered p (cells_of (view_layers p h code plus minus view))
        → IsFilteredCut p view.inner closing kind (λ i s. 2 ^ seen_count (relation i s) view.names)
        (λ i j s label other. deformed_saddle_number h (opposite p h) (relation i s) (relation j s)
        view.names label other)
        (view_layers p h code plus minus view) }
    ensures plain { (p : ℕ) (code : Code) (plus minus : ℕ) (view : View) (closing : ℕ) (kind : ℕ → ℕ)
        (relation : ℕ → ℕ → ℕ → ℕ → Bool) → IsSeenBy code view closing kind relation
        → HasCircles code → 1 < p → AreComplex p (cells_of (view_layers p 0 code plus minus view))
        → IsCut p view.inner closing kind (λ i s. 2 ^ seen_count (relation i s) view.names)
        (λ i j s label other. saddle_number (relation i s) (relation j s) view.names label other)
        (view_layers p 0 code plus minus view) }
{}

/// Every Reidemeister move keeps the survivors of the deformed cube, at each homological degree and
/// from each quantum degree on, whatever h is (Rasmussen 2010; Mackaay, Turner and Vaz 2007).
pub fn moves_keep_survivors()
    ensures { (p h : ℕ) (code new : Code) (change : Move) → HasInverses p
        → IsTrue (accepted code) → moved code change ≡ Ok new
        → (i t : ℤ) → code_survivors p h new i t ≡ code_survivors p h code i t }
{}

/// So do other numbers of the arcs, and another order of the crossings, where each crossing keeps
/// its sign; and so does the reversal of all components.
pub fn names_keep_survivors()
    ensures numbers { (p h : ℕ) (old new : Code) → HasInverses p → IsTrue (accepted old)
        → IsTrue (accepted new) → HasOtherNumbers old new
        → (i t : ℤ) → code_survivors p h new i t ≡ code_survivors p h old i t }
    ensures order { (p h : ℕ) (old new : Code) → HasInverses p → HasOtherOrder old new
        → (i t : ℤ) → code_survivors p h new i t ≡ code_survivors p h old i t }
    ensures reversal { (p h : ℕ) (code : Code) → HasInverses p → IsTrue (accepted code)
        → (i t : ℤ) → code_survivors p h (reversal_of code) i t ≡ code_survivors p h code i t }
{}

/// Where h is 0, what survives from j on and not from j + 1 on is the homology at j: so what is
/// said of survivors is said of homology too.
pub fn survivors_at_zero_are_homology()
    ensures { (p : ℕ) (code : Code) (i j : ℤ) → HasInverses p → IsTrue (accepted code)
        → code_survivors p 0 code i j - code_survivors p 0 code i (j +ℤ pos 1) ≡ dimension p code i j }
{}

/// Every Reidemeister move keeps all dimensions of homology, and so the table, over each field of p
/// elements; so over the four fields of the program (Khovanov 2000, theorem 1; Bar-Natan 2002,
/// section 3.5). That moves keep the unnormalised Jones polynomial is said by `apply_move` of
/// `diagram_moves`.
pub fn moves_keep_homology()
    ensures dimensions { (p : ℕ) (code new : Code) (change : Move) → HasInverses p
        → IsTrue (accepted code) → moved code change ≡ Ok new
        → (i j : ℤ) → dimension p new i j ≡ dimension p code i j }
    ensures table { (p : ℕ) (code new : Code) (change : Move) → HasInverses p
        → IsTrue (accepted code) → moved code change ≡ Ok new → table p new ≡ table p code }
    ensures fields { (p : ℕ) (code new : Code) (change : Move) → IsSmallPrime p
        → IsTrue (accepted code) → moved code change ≡ Ok new → table p new ≡ table p code }
{}
