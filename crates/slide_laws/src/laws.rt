//! What a slide keeps.

ghost use Rattle.std.specs.Prelude.{◌≡◌, ◌≢◌, ◌↔◌, false, ℕ, ◌<◌, List, IsTrue, Some, None, Bool, true, length, ℤ};
ghost use Rattle.kh_types.specs.Code.{Code, IsCrossing};
ghost use Rattle.kh_types.specs.Acceptance.{accepted};
ghost use Rattle.kh_types.specs.Checkerboard.{IsCheckerboard};
ghost use Rattle.kh_types.specs.Components.{components_of, component_count};
ghost use Rattle.kh_types.specs.Darts.{dart_count, HasArcsTwice, partner_at};
ghost use Rattle.kh_types.specs.Directions.{is_positive, plus_count, minus_count};
ghost use Rattle.kh_types.specs.Faces.{face_count, piece_count, planar_face_count};
ghost use Rattle.kh_types.specs.StateSum.{state_sum, sum_with};
ghost use Rattle.gluing_laws.specs.Codes.{HoldsArcs, IsRenumbered, arc_of_dart};
ghost use Rattle.slide_laws.specs.Triangles.{slide_slot, has_heights, has_triangle, is_triangle, dart_at_slot, step, HasOneParity, IsTriangle, IsTriangleAt};
ghost use Rattle.slide_laws.specs.Slid.{on, slid, slid_code, source};
ghost use Rattle.slide_laws.specs.SlideCodes.{HasHeadsAndTails, FollowsRule, KeepsPass};

/// The slot at which a slide is made is one of a triangle whose slots do not have one parity.
pub fn slides_are_at_triangles()
    ensures triangle { (crossings : List (List ℕ)) (c d e slot : ℕ) → IsCrossing crossings c
        → IsCrossing crossings d → IsCrossing crossings e → slide_slot crossings c d e ≡ Some slot
        → IsTriangle crossings (dart_at_slot c slot) (step crossings (dart_at_slot c slot))
        (step crossings (step crossings (dart_at_slot c slot))) }
    ensures heights { (crossings : List (List ℕ)) (c d e slot : ℕ)
        → slide_slot crossings c d e ≡ Some slot
        → has_heights (dart_at_slot c slot) (step crossings (dart_at_slot c slot))
        (step crossings (step crossings (dart_at_slot c slot))) ≡ true }
{}

/// The tests say what the rule of faults says, of three crossings of a code. There is no triangle
/// exactly where no slot of the first has one. No slide can be made exactly where the slots of each
/// triangle have one parity, and else it is made at the least slot.
pub fn triangles_are_tested()
    ensures triangle { (crossings : List (List ℕ)) (c d e slot : ℕ) → IsCrossing crossings c
        → IsCrossing crossings d
        → IsCrossing crossings e → slot < 4
        → (is_triangle crossings c d e slot ≡ true) ↔ IsTriangleAt crossings c d e slot }
    ensures none { (crossings : List (List ℕ)) (c d e : ℕ) → IsCrossing crossings c
        → IsCrossing crossings d → IsCrossing crossings e
        → (has_triangle crossings c d e ≡ false) ↔ ((slot : ℕ) → slot < 4
        → ¬ IsTriangleAt crossings c d e slot) }
    ensures heights { (crossings : List (List ℕ)) (c d e : ℕ) → IsCrossing crossings c
        → IsCrossing crossings d → IsCrossing crossings e
        → (slide_slot crossings c d e ≡ None)
        ↔ ((slot : ℕ) → slot < 4 → IsTriangleAt crossings c d e slot
        → HasOneParity crossings c slot) }
    ensures least { (crossings : List (List ℕ)) (c d e slot k : ℕ)
        → slide_slot crossings c d e ≡ Some slot → k < slot
        → IsTriangleAt crossings c d e k → HasOneParity crossings c k }
{}

/// A slide follows the rule at each of the three sides of the triangle.
pub fn slides_follow_the_rule()
    ensures first { (crossings : List (List ℕ)) (x y z : ℕ) → HasArcsTwice crossings
        → IsTriangle crossings x y z
        → FollowsRule crossings (slid crossings x y z) x (partner_at crossings x) }
    ensures second { (crossings : List (List ℕ)) (x y z : ℕ) → HasArcsTwice crossings
        → IsTriangle crossings x y z
        → FollowsRule crossings (slid crossings x y z) y (partner_at crossings y) }
    ensures third { (crossings : List (List ℕ)) (x y z : ℕ) → HasArcsTwice crossings
        → IsTriangle crossings x y z
        → FollowsRule crossings (slid crossings x y z) z (partner_at crossings z) }
{}

/// After a slide each arc stands twice, once as head and once as tail by the old signs.
pub fn slides_keep_arcs()
    ensures size { (crossings : List (List ℕ)) (x y z : ℕ)
        → length (slid crossings x y z) ≡ length crossings }
    ensures twice { (crossings : List (List ℕ)) (x y z : ℕ) → HasArcsTwice crossings
        → IsTriangle crossings x y z
        → HasArcsTwice (slid crossings x y z) }
    ensures directed { (code : Code) (x y z : ℕ) → IsTrue (accepted code)
        → IsTriangle code.crossings x y z
        → HasHeadsAndTails (slid code.crossings x y z) (is_positive code.crossings) }
{}

/// After a slide there is a checkerboard choice, and there are as many faces and pieces as before.
pub fn slides_keep_the_plane()
    ensures checkerboard { (code : Code) (x y z : ℕ) → IsTrue (accepted code)
        → IsTriangle code.crossings x y z
        → IsCheckerboard (slid code.crossings x y z) }
    ensures pieces { (crossings : List (List ℕ)) (x y z : ℕ) → HasArcsTwice crossings
        → IsTriangle crossings x y z
        → piece_count (slid crossings x y z) ≡ piece_count crossings }
    ensures faces { (crossings : List (List ℕ)) (x y z : ℕ) → HasArcsTwice crossings
        → IsTriangle crossings x y z
        → face_count (slid crossings x y z) ≡ face_count crossings }
    ensures planar { (code : Code) (x y z : ℕ) → IsTrue (accepted code)
        → IsTriangle code.crossings x y z
        → face_count (slid code.crossings x y z) ≡ planar_face_count (slid code.crossings x y z) }
{}

/// A slide at a triangle whose slots do not have one parity keeps the state sum, with the old
/// numbers of positive and negative crossings; and so does any code that is the slid one under
/// other numbers, with as many positive crossings.
pub fn slides_keep_the_state_sum()
    ensures slid { (code : Code) (x y z : ℕ) → IsTrue (accepted code)
        → IsTriangle code.crossings x y z
        → has_heights x y z ≡ true → (exponent : ℤ)
        → sum_with (plus_count code.crossings) (minus_count code.crossings) (slid_code code x y z)
        exponent
        ≡ state_sum code exponent }
    ensures renumbered { (f : ℕ → ℕ) (code new : Code) (x y z : ℕ) → IsTrue (accepted code)
        → IsTriangle code.crossings x y z
        → has_heights x y z ≡ true → IsRenumbered f (slid_code code x y z) new → HoldsArcs new
        → plus_count new.crossings ≡ plus_count code.crossings → (exponent : ℤ)
        → state_sum new exponent ≡ state_sum code exponent }
{}

/// A slide keeps the passes: it lays each on another crossing, or on the other strand of one, so
/// that each goes from one arc to another as a pass of the old code did, to another arc than it
/// came from; and twice the same way leads back, so that each old pass is one of the new code. So
/// the components stay, arc by arc.
pub fn slides_keep_passes()
    ensures passes { (code : Code) (x y z place : ℕ) → IsTrue (accepted code)
        → IsTriangle code.crossings x y z
        → place < dart_count code.crossings
        → KeepsPass code.crossings (slid code.crossings x y z) (is_positive code.crossings) place
        (source x y z place) }
    ensures apart { (code : Code) (x y z place : ℕ) → IsTrue (accepted code)
        → IsTriangle code.crossings x y z
        → place < dart_count code.crossings
        → arc_of_dart (slid code.crossings x y z) place ≢ arc_of_dart (slid code.crossings x y z) (on
        place 2) }
    ensures back { (crossings : List (List ℕ)) (x y z place : ℕ) → IsTriangle crossings x y z
        → source x y z (source x y z place) ≡ place }
    ensures components { (crossings : List (List ℕ)) (x y z : ℕ) → HasArcsTwice crossings
        → IsTriangle crossings x y z
        → components_of (slid crossings x y z) ≡ components_of crossings }
    ensures count { (crossings : List (List ℕ)) (x y z : ℕ) → HasArcsTwice crossings
        → IsTriangle crossings x y z
        → component_count (slid crossings x y z) ≡ component_count crossings }
{}
