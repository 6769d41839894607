//! Moves that are taken back by moves.

ghost use Rattle.std.specs.Prelude.{◌≡◌, ◌+◌, ◌%◌, ◌<◌, ℕ, All, Bool, IsTrue, Ok, Some, length};
ghost use Rattle.kh_types.specs.Acceptance.{accepted};
ghost use Rattle.kh_types.specs.Code.{Code, IsCrossing};
ghost use Rattle.slide_laws.specs.Triangles.{IsTriangleAt, slide_slot};
ghost use Rattle.diagram_moves.specs.Moved.{moved, slid_from};
ghost use Rattle.diagram_moves.specs.declared.change.Move.TheVariants.{FingerAdd, FingerDrop, KinkAdd, KinkDrop, Slide};
ghost use Rattle.diagram_moves.specs.declared.change.Side.{Side};

/// A kink that is added and dropped gives the diagram back, with its numbers.
pub fn added_kinks_are_dropped()
    ensures { (code new : Code) (arc : ℕ) (under_first positive : Bool) → IsTrue (accepted code)
        → All (λ slots. length slots ≡ 4) code.crossings
        → moved code (KinkAdd arc under_first positive) ≡ Ok new
        → moved new (KinkDrop (length code.crossings + 1)) ≡ Ok code }
{}

/// So does a finger that is added and dropped.
pub fn added_fingers_are_dropped()
    ensures { (code new : Code) (over : ℕ) (over_side : Side) (under : ℕ) (under_side : Side)
        → IsTrue (accepted code)
        → All (λ slots. length slots ≡ 4) code.crossings
        → moved code (FingerAdd over over_side under under_side) ≡ Ok new
        → moved new (FingerDrop (length code.crossings + 1) (length code.crossings + 2)) ≡ Ok code }
{}

/// A slide at the slot across from that of a slide gives the diagram back; and so does the move,
/// where it is made at that slot, as where the slide left no other triangle at its crossings.
pub fn slides_are_taken_back()
    ensures across { (code : Code) (c d e slot : ℕ) → IsTrue (accepted code)
        → All (λ slots. length slots ≡ 4) code.crossings → IsCrossing code.crossings c
        → IsCrossing code.crossings d → IsCrossing code.crossings e
        → slide_slot code.crossings c d e ≡ Some slot
        → slid_from (slid_from code c slot) c ((slot + 2) % 4) ≡ code }
    ensures moved { (code new : Code) (c d e slot : ℕ) → IsTrue (accepted code)
        → All (λ slots. length slots ≡ 4) code.crossings
        → moved code (Slide c d e) ≡ Ok new → slide_slot code.crossings c d e ≡ Some slot
        → slide_slot new.crossings c d e ≡ Some ((slot + 2) % 4)
        → moved new (Slide c d e) ≡ Ok code }
    ensures lone { (code new : Code) (c d e slot : ℕ) → IsTrue (accepted code)
        → All (λ slots. length slots ≡ 4) code.crossings
        → moved code (Slide c d e) ≡ Ok new → slide_slot code.crossings c d e ≡ Some slot
        → ((k : ℕ) → k < 4 → IsTriangleAt new.crossings c d e k → k ≡ (slot + 2) % 4)
        → moved new (Slide c d e) ≡ Ok code }
{}
