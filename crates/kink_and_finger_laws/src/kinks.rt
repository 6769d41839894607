//! What stays and what changes where a kink is added: components, faces, signs, and that a code is
//! accepted.

ghost use Rattle.std.specs.Prelude.{◌≡◌, ◌≢◌, ℕ, ◌+◌, ℤ, Bool, IsTrue, length};
ghost use Rattle.kh_types.specs.Code.{Code, IsArc, IsCrossing, slots_of};
ghost use Rattle.kh_types.specs.Darts.{IsDart, arc_of};
ghost use Rattle.kh_types.specs.declared.dart.Dart.{Dart};
ghost use Rattle.kh_types.specs.Components.{component_count, next};
ghost use Rattle.kh_types.specs.Faces.{face_count, planar_face_count};
ghost use Rattle.kh_types.specs.Acceptance.{accepted};
ghost use Rattle.kh_types.specs.Accepted.{IsDirected};
ghost use Rattle.kh_types.specs.Directions.{head_of, is_positive as sign, minus_count, plus_count, tail_of};
ghost use Rattle.kh_types.specs.StateSum.{state_sum};
ghost use Rattle.kink_and_finger_laws.specs.KinkAdds.{kink_crossing, raised, with_kink};
ghost use Rattle.kink_and_finger_laws.specs.KinkCodes.{one_where};

/// A kink of any kind on an arc of an accepted code: the code that results is directed, has as many
/// components and one crossing more, has n + 2k faces, and is accepted.
pub fn kinks_are_accepted()
    ensures directed { (code : Code) (a : ℕ) (is_over is_positive : Bool)
        → IsTrue (accepted code) → IsArc code.crossings a
        → IsDirected (with_kink is_over is_positive a code).crossings }
    ensures components { (code : Code) (a : ℕ) (is_over is_positive : Bool)
        → IsTrue (accepted code) → IsArc code.crossings a
        → component_count (with_kink is_over is_positive a code).crossings
        ≡ component_count code.crossings }
    ensures size { (code : Code) (a : ℕ) (is_over is_positive : Bool)
        → length (with_kink is_over is_positive a code).crossings ≡ length code.crossings + 1 }
    ensures faces { (code : Code) (a : ℕ) (is_over is_positive : Bool) → IsTrue (accepted code)
        → IsArc code.crossings a
        → face_count (with_kink is_over is_positive a code).crossings
        ≡ planar_face_count (with_kink is_over is_positive a code).crossings }
    ensures accepted { (code : Code) (a : ℕ) (is_over is_positive : Bool)
        → IsTrue (accepted code) → IsArc code.crossings a
        → IsTrue (accepted (with_kink is_over is_positive a code)) }
{}

/// The rewriting: the tail of the arc a keeps a and its head becomes a + 2; at all other darts the
/// numbers above a have risen by 2. The new crossing is the last; the arc a is followed by a + 1
/// there, and that by a + 2.
pub fn kinks_follow_the_rule()
    ensures tail { (code : Code) (a : ℕ) (is_over is_positive : Bool) → IsTrue (accepted code)
        → IsArc code.crossings a
        → arc_of (with_kink is_over is_positive a code).crossings (tail_of code.crossings a) ≡ a }
    ensures head { (code : Code) (a : ℕ) (is_over is_positive : Bool) → IsTrue (accepted code)
        → IsArc code.crossings a
        → arc_of (with_kink is_over is_positive a code).crossings (head_of code.crossings a)
        ≡ a + 2 }
    ensures others { (code : Code) (a : ℕ) (is_over is_positive : Bool) (dart : Dart)
        → IsDart code.crossings dart
        → arc_of code.crossings dart ≢ a
        → arc_of (with_kink is_over is_positive a code).crossings dart
        ≡ raised a (arc_of code.crossings dart) }
    ensures last { (code : Code) (a : ℕ) (is_over is_positive : Bool)
        → slots_of (with_kink is_over is_positive a code).crossings (length code.crossings + 1)
        ≡ kink_crossing is_over is_positive a }
    ensures first_pass { (code : Code) (a : ℕ) (is_over is_positive : Bool)
        → IsTrue (accepted code) → IsArc code.crossings a
        → next (with_kink is_over is_positive a code).crossings a ≡ a + 1 }
    ensures second_pass { (code : Code) (a : ℕ) (is_over is_positive : Bool)
        → IsTrue (accepted code) → IsArc code.crossings a
        → next (with_kink is_over is_positive a code).crossings (a + 1) ≡ a + 2 }
{}

/// The old crossings keep their signs, the new one has the named sign, and the state sum stays.
pub fn kinks_keep_signs()
    ensures old { (code : Code) (a crossing : ℕ) (is_over is_positive : Bool)
        → IsTrue (accepted code) → IsArc code.crossings a
        → IsCrossing code.crossings crossing
        → sign (with_kink is_over is_positive a code).crossings crossing
        ≡ sign code.crossings crossing }
    ensures new { (code : Code) (a : ℕ) (is_over is_positive : Bool) → IsTrue (accepted code)
        → IsArc code.crossings a
        → sign (with_kink is_over is_positive a code).crossings (length code.crossings + 1)
        ≡ is_positive }
    ensures plus { (code : Code) (a : ℕ) (is_over is_positive : Bool) → IsTrue (accepted code)
        → IsArc code.crossings a
        → plus_count (with_kink is_over is_positive a code).crossings
        ≡ plus_count code.crossings + one_where is_positive }
    ensures state_sum { (code : Code) (a : ℕ) (is_over is_positive : Bool)
        → IsTrue (accepted code) → IsArc code.crossings a
        → (exponent : ℤ) → state_sum (with_kink is_over is_positive a code) exponent
        ≡ state_sum code exponent }
{}
