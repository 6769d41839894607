//! What the checkerboard condition is.

ghost use Rattle.std.specs.Prelude.{◌≡◌, ◌↔◌, ℕ, List, None};
ghost use Rattle.kh_types.specs.Checkerboard.{IsCheckerboard};
ghost use Rattle.kh_types.specs.Acceptance.{checkerboard_fault};

/// A code breaks no checkerboard rule exactly where some choice of one bit for each crossing solves
/// the equations of all arcs.
pub fn checkerboard_is_a_choice()
    ensures { (crossings : List (List ℕ))
        → (checkerboard_fault crossings ≡ None) ↔ IsCheckerboard crossings }
{}
