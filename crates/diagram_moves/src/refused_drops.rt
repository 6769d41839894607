//! Where drops are refused, and what they leave.

ghost use Rattle.std.specs.Prelude.{◌≡◌, ◌↔◌, ℕ, Err, IsTrue, Ok, nat_eq};
ghost use Rattle.kh_types.specs.Acceptance.{accepted};
ghost use Rattle.kh_types.specs.Code.{Code, IsCrossing, place_of};
ghost use Rattle.code_passes.specs.Parts.{Parts};
ghost use Rattle.kink_and_finger_laws.specs.Dropping.{HasBigonAt};
ghost use Rattle.kink_and_finger_laws.specs.DropRule.{IsLeft};
ghost use Rattle.kink_and_finger_laws.specs.Drops.{is_of_two};
ghost use Rattle.orient_arcs.specs.Renumbered.{renumber};
ghost use Rattle.diagram_moves.specs.DropPasses.{AreNeighbours, HasKink, over_pass_of, under_pass_of};
ghost use Rattle.diagram_moves.specs.Moved.{moved};
ghost use Rattle.diagram_moves.specs.declared.change.Move.TheVariants.{FingerDrop, KinkDrop};
ghost use Rattle.diagram_moves.specs.declared.fault.MoveFault.TheVariants.{NoBigon, NoCrossing, NoKink};

/// The drop of a kink is refused exactly where there is no such crossing, or where neither of its
/// two passes leaves on the arc on which the other enters. What it leaves is the rule's,
/// renumbered.
pub fn kinks_are_dropped_by_the_rule()
    ensures no_crossing { (code : Code) (crossing : ℕ)
        → (moved code (KinkDrop crossing) ≡ Err (NoCrossing crossing))
        ↔ ¬ IsCrossing code.crossings crossing }
    ensures no_kink { (code : Code) (crossing : ℕ) → IsTrue (accepted code)
        → IsCrossing code.crossings crossing
        → (moved code (KinkDrop crossing) ≡ Err (NoKink crossing))
        ↔ ¬ HasKink code.crossings crossing }
    ensures made { (code : Code) (crossing : ℕ) → IsTrue (accepted code)
        → IsCrossing code.crossings crossing → HasKink code.crossings crossing
        → (new : Code) × (moved code (KinkDrop crossing) ≡ Ok new) }
    ensures left { (code new : Code) (crossing : ℕ) → IsTrue (accepted code)
        → moved code (KinkDrop crossing) ≡ Ok new
        → (parts : Parts) × IsLeft code (nat_eq (place_of crossing)) parts
        × (new ≡ renumber parts) }
{}

/// The drop of two crossings is refused exactly where there is no such crossing, the first named
/// one first, or where they meet in no bigon from any slot of the first and any of the second. In a
/// bigon the two over passes follow one another, and so do the two under passes. What it leaves is
/// the rule's, renumbered.
pub fn bigons_are_dropped_by_the_rule()
    ensures first { (code : Code) (first second : ℕ) → ¬ IsCrossing code.crossings first
        → moved code (FingerDrop first second) ≡ Err (NoCrossing first) }
    ensures second { (code : Code) (first second : ℕ) → IsCrossing code.crossings first
        → ¬ IsCrossing code.crossings second
        → moved code (FingerDrop first second) ≡ Err (NoCrossing second) }
    ensures no_bigon { (code : Code) (first second : ℕ) → IsCrossing code.crossings first
        → IsCrossing code.crossings second
        → (moved code (FingerDrop first second) ≡ Err (NoBigon first second))
        ↔ ((p q : ℕ) → ¬ HasBigonAt code.crossings (place_of first) (place_of second) p q) }
    ensures made { (code : Code) (first second p q : ℕ) → IsCrossing code.crossings first
        → IsCrossing code.crossings second
        → HasBigonAt code.crossings (place_of first) (place_of second) p q
        → (new : Code) × (moved code (FingerDrop first second) ≡ Ok new) }
    ensures passes { (code : Code) (first second p q : ℕ) → IsTrue (accepted code)
        → IsCrossing code.crossings first → IsCrossing code.crossings second
        → HasBigonAt code.crossings (place_of first) (place_of second) p q
        → AreNeighbours (over_pass_of code.crossings first) (over_pass_of code.crossings second)
        × AreNeighbours (under_pass_of code.crossings first) (under_pass_of code.crossings
        second) }
    ensures left { (code new : Code) (first second : ℕ) → IsTrue (accepted code)
        → moved code (FingerDrop first second) ≡ Ok new
        → (parts : Parts) × IsLeft code (is_of_two (place_of first) (place_of second)) parts
        × (new ≡ renumber parts) }
{}
