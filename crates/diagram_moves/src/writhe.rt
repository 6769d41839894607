//! What moves do to the writhe.

ghost use Rattle.std.specs.Prelude.{◌≡◌, ◌+ℤ◌, IsTrue, Ok};
ghost use Rattle.kh_types.specs.Acceptance.{accepted};
ghost use Rattle.kh_types.specs.Code.{Code};
ghost use Rattle.diagram_moves.specs.Moved.{moved};
ghost use Rattle.diagram_moves.specs.Writhe.{writhe, writhe_change};
ghost use Rattle.diagram_moves.specs.declared.change.Move.{Move};

/// A kink that is added brings its sign to the writhe, one that is dropped takes it away; all other
/// moves keep the writhe.
#[tactic(auto, using(crate::proofs::Writhes::moves_change_the_writhe))]
pub fn moves_change_the_writhe()
    ensures { (code new : Code) (change : Move) → IsTrue (accepted code)
        → moved code change ≡ Ok new → writhe new ≡ writhe code +ℤ writhe_change code change }
{}
