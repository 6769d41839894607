//! The squares of the cube: what switching two crossings does in the one order and in the other.

ghost use Rattle.std.specs.Prelude.{◌≡◌, ◌≢◌, ℕ, ◌+◌, ◌*◌, ◌%◌, ◌<◌, ◌≤◌, IsTrue};
ghost use Rattle.kh_types.specs.Acceptance.{accepted};
ghost use Rattle.kh_types.specs.Bits.{bit};
ghost use Rattle.kh_types.specs.Code.{Code, IsCrossing, place_of};
ghost use Rattle.kh_types.specs.Differential.{edge_sign};
ghost use Rattle.kh_types.specs.Edges.{state_behind};
ghost use Rattle.square_laws.specs.Squares.{IsSquare};

/// Two crossings are switched in the one order and in the other. Each merges two circles or splits
/// one, and either each does the same in both orders; or both merge where they are switched first
/// and split where they are second, and split the one circle into the same two; or both split first
/// and merge second, and touch one circle in the end.
pub fn squares_of_the_cube()
    ensures { (code : Code) (state a b : ℕ) → IsTrue (accepted code)
        → IsCrossing code.crossings a → IsCrossing code.crossings b → a ≢ b
        → bit state (place_of a) ≡ 0 → bit state (place_of b) ≡ 0 → IsSquare code state a b }
{}

/// The two ways round a square have opposite signs modulo p: their products add up to 0.
pub fn signs_are_opposite()
    ensures { (p state a b : ℕ) → 0 < p → 1 ≤ a → a < b
        → bit state (place_of a) ≡ 0 → bit state (place_of b) ≡ 0
        → (edge_sign p (state_behind state a) b * edge_sign p state a
        + edge_sign p (state_behind state b) a * edge_sign p state b) % p ≡ 0 }
{}
