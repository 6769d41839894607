//! What a finger keeps.

ghost use Rattle.std.specs.Prelude.{◌≡◌, ◌≢◌, ◌↔◌, ℕ, ◌+◌, ℤ, Bool, IsTrue, true, false, not, length};
ghost use Rattle.kh_types.specs.Code.{Code, IsArc, slots_of};
ghost use Rattle.kh_types.specs.Darts.{IsDart, arc_of};
ghost use Rattle.kh_types.specs.declared.dart.Dart.{Dart};
ghost use Rattle.kh_types.specs.Components.{component_count};
ghost use Rattle.kh_types.specs.Faces.{face_count, planar_face_count};
ghost use Rattle.kh_types.specs.Acceptance.{accepted};
ghost use Rattle.kh_types.specs.Accepted.{IsDirected};
ghost use Rattle.kh_types.specs.Directions.{is_head, is_positive, plus_count, minus_count};
ghost use Rattle.kh_types.specs.Code.{IsCrossing};
ghost use Rattle.kink_and_finger_laws.specs.FingerAdd.{with_finger, differ, first_crossing, head_number, opened};
ghost use Rattle.kink_and_finger_laws.specs.FingerAdd.{second_crossing, AreOfOneFace, AreOfTwoPieces, IsFollowed};
ghost use Rattle.kh_types.specs.StateSum.{state_sum};
ghost use Rattle.kink_and_finger_laws.specs.FingerCodes.{IsWithFinger};

/// A finger of an arc of an accepted code over another arc, on any sides: the code that results is
/// directed and has as many components, and it is accepted exactly where it has n + 2k faces.
pub fn fingers_are_accepted_where_they_are_planar()
    ensures directed { (code : Code) (a b : ℕ) (a_left b_left : Bool) → IsTrue (accepted code)
        → IsArc code.crossings a → IsArc code.crossings b → a ≢ b
        → IsDirected (with_finger code a a_left b b_left).crossings }
    ensures components { (code : Code) (a b : ℕ) (a_left b_left : Bool) → IsTrue (accepted code)
        → IsArc code.crossings a → IsArc code.crossings b → a ≢ b
        → component_count (with_finger code a a_left b b_left).crossings
        ≡ component_count code.crossings }
    ensures accepted { (code : Code) (a b : ℕ) (a_left b_left : Bool) → IsTrue (accepted code)
        → IsArc code.crossings a → IsArc code.crossings b → a ≢ b
        → (face_count (with_finger code a a_left b b_left).crossings
        ≡ planar_face_count (with_finger code a a_left b b_left).crossings)
        ↔ IsTrue (accepted (with_finger code a a_left b b_left)) }
{}

/// The rewriting: where an old crossing is left, the number has risen by 2 for each of the two arcs
/// below it; where one is entered, so has it, and on the two arcs it is their last part. The new
/// crossings are the last two. The over arc passes the first of them and then the second, the under
/// arc so where the two named sides differ, and each is followed by its second and third part.
pub fn fingers_follow_the_rule()
    ensures tail { (code : Code) (a b : ℕ) (a_left b_left : Bool) (dart : Dart)
        → IsDart code.crossings dart → is_head code.crossings dart ≡ false
        → arc_of (with_finger code a a_left b b_left).crossings dart
        ≡ opened a b (arc_of code.crossings dart) }
    ensures head { (code : Code) (a b : ℕ) (a_left b_left : Bool) (dart : Dart)
        → IsDart code.crossings dart → is_head code.crossings dart ≡ true
        → arc_of (with_finger code a a_left b b_left).crossings dart
        ≡ head_number a b (arc_of code.crossings dart) }
    ensures first { (code : Code) (a b : ℕ) (a_left b_left : Bool)
        → slots_of (with_finger code a a_left b b_left).crossings (length code.crossings + 1)
        ≡ first_crossing (opened a b a) (opened a b b) b_left (differ a_left b_left) }
    ensures second { (code : Code) (a b : ℕ) (a_left b_left : Bool)
        → slots_of (with_finger code a a_left b b_left).crossings (length code.crossings + 2)
        ≡ second_crossing (opened a b a) (opened a b b) b_left (differ a_left b_left) }
    ensures over { (code : Code) (a b : ℕ) (a_left b_left : Bool) → IsTrue (accepted code)
        → IsArc code.crossings a → IsArc code.crossings b → a ≢ b
        → IsFollowed (with_finger code a a_left b b_left).crossings (opened a b a) }
    ensures under { (code : Code) (a b : ℕ) (a_left b_left : Bool) → IsTrue (accepted code)
        → IsArc code.crossings a → IsArc code.crossings b → a ≢ b
        → IsFollowed (with_finger code a a_left b b_left).crossings (opened a b b) }
{}

/// The old crossings keep their signs, and the two new ones have opposite signs; the old arcs go on
/// by way of the new ones, and the code with the finger has the state sum of the code without it.
pub fn fingers_keep_signs()
    ensures old { (code : Code) (a b crossing : ℕ) (a_left b_left : Bool) → IsTrue (accepted code)
        → IsArc code.crossings a → IsArc code.crossings b → a ≢ b
        → IsCrossing code.crossings crossing
        → is_positive (with_finger code a a_left b b_left).crossings crossing
        ≡ is_positive code.crossings crossing }
    ensures first { (code : Code) (a b : ℕ) (a_left b_left : Bool) → IsTrue (accepted code)
        → IsArc code.crossings a → IsArc code.crossings b → a ≢ b
        → is_positive (with_finger code a a_left b b_left).crossings (length code.crossings + 1)
        ≡ b_left }
    ensures second { (code : Code) (a b : ℕ) (a_left b_left : Bool) → IsTrue (accepted code)
        → IsArc code.crossings a → IsArc code.crossings b → a ≢ b
        → is_positive (with_finger code a a_left b b_left).crossings (length code.crossings + 2)
        ≡ not b_left }
    ensures meets { (code : Code) (a b : ℕ) (a_left b_left : Bool) → IsTrue (accepted code)
        → IsArc code.crossings a → IsArc code.crossings b → a ≢ b
        → (arcs : ℕ → ℕ) × (low : ℕ → ℕ)
        × IsWithFinger b_left (differ a_left b_left) code (with_finger code a a_left b b_left)
        arcs low }
    ensures state_sum { (code : Code) (a b : ℕ) (a_left b_left : Bool) → IsTrue (accepted code)
        → IsArc code.crossings a → IsArc code.crossings b → a ≢ b → (exponent : ℤ)
        → state_sum (with_finger code a a_left b b_left) exponent ≡ state_sum code exponent }
{}

/// Where the named sides of the two arcs are in one face, or the two arcs in two pieces, the code
/// with the finger has n + 2k faces.
pub fn fingers_are_planar()
    ensures one_face { (code : Code) (a b : ℕ) (a_left b_left : Bool) → IsTrue (accepted code)
        → IsArc code.crossings a → IsArc code.crossings b → a ≢ b
        → AreOfOneFace code.crossings a a_left b b_left
        → face_count (with_finger code a a_left b b_left).crossings
        ≡ planar_face_count (with_finger code a a_left b b_left).crossings }
    ensures two_pieces { (code : Code) (a b : ℕ) (a_left b_left : Bool) → IsTrue (accepted code)
        → IsArc code.crossings a → IsArc code.crossings b → AreOfTwoPieces code.crossings a b
        → face_count (with_finger code a a_left b b_left).crossings
        ≡ planar_face_count (with_finger code a a_left b b_left).crossings }
{}
