//! What moves keep.

ghost use Rattle.std.specs.Prelude.{◌≡◌, ◌-◌, ◌+◌, ℕ, true, IfOk, IsTrue, length};
ghost use Rattle.kh_types.specs.Acceptance.{accepted};
ghost use Rattle.kh_types.specs.Code.{Code};
ghost use Rattle.kh_types.specs.Components.{component_count};
ghost use Rattle.kink_and_finger_laws.specs.Drops.{without_finger, without_kink};
ghost use Rattle.kink_and_finger_laws.specs.Dropping.{HasBigonAt, HasKinkAt};
ghost use Rattle.kink_and_finger_laws.specs.Pulls.{early, late};
ghost use Rattle.slide_laws.specs.Triangles.{IsTriangle, has_heights};
ghost use Rattle.orient_arcs.specs.Renumbered.{renumber};
ghost use Rattle.diagram_moves.specs.Kept.{IsKeptCode, slid_parts};
ghost use Rattle.diagram_moves.specs.Moved.{moved};
ghost use Rattle.diagram_moves.specs.declared.change.Move.{Move};

/// Where a crossing with a kink is dropped from an accepted code, the renumbered code is accepted,
/// and keeps components and loops together, the signs of the crossings that stay, and the state
/// sum.
pub fn kinks_are_dropped()
    ensures { (code : Code) (c p : ℕ) → IsTrue (accepted code) → HasKinkAt code.crossings c p
        → IsKeptCode code (renumber (without_kink code c)) (early c (length code.crossings - 1))
        (length code.crossings - 1) }
{}

/// So where two crossings that meet in a bigon are dropped.
pub fn fingers_are_dropped()
    ensures { (code : Code) (c d p q : ℕ) → IsTrue (accepted code)
        → HasBigonAt code.crossings c d p q
        → IsKeptCode code (renumber (without_finger code c d))
        (λ i. early c (length code.crossings - 2 + 1)
        (early (late c (length code.crossings - 2 + 1) d) (length code.crossings - 2) i)) (length
        code.crossings - 2) }
{}

/// And so after a slide at a triangle whose slots do not have one parity: each crossing keeps its
/// place and its sign.
pub fn slides_are_made()
    ensures { (code : Code) (x y z : ℕ) → IsTrue (accepted code)
        → IsTriangle code.crossings x y z → has_heights x y z ≡ true
        → IsKeptCode code (renumber (slid_parts code x y z)) (λ place. place) (length
        code.crossings) }
{}

/// Components and loops together stay under every move.
#[tactic(auto, using(crate::proofs::ApplyLemmas::moves_keep_components))]
pub fn moves_keep_components()
    ensures { (code : Code) (change : Move) → IsTrue (accepted code) → IfOk (moved code change)
        (λ new. component_count new.crossings + new.loops
        ≡ component_count code.crossings + code.loops) }
{}
