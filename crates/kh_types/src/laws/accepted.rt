//! What an accepted code is.

ghost use Rattle.std.specs.Prelude.{◌≡◌, ◌↔◌, ℕ, List, IsTrue, None};
ghost use Rattle.kh_types.specs.Code.{Code};
ghost use Rattle.kh_types.specs.Acceptance.{accepted, direction_fault};
ghost use Rattle.kh_types.specs.Accepted.{IsDirected, IsAccepted};

/// The rules say what the subject says. A code breaks none of the first six rules exactly where it
/// is a directed code, and none of the nine exactly where it also has a checkerboard choice, n + 2k
/// faces for n crossings in k pieces, and not too many components and loops.
pub fn rules_say_what_is_accepted()
    ensures directed { (crossings : List (List ℕ))
        → (direction_fault crossings ≡ None) ↔ IsDirected crossings }
    ensures accepted { (code : Code) → IsTrue (accepted code) ↔ IsAccepted code }
{}
