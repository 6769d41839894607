//! What an edge of the cube does to the circles of an accepted code.

ghost use Rattle.std.specs.Prelude.{◌≡◌, ℕ, IsTrue};
ghost use Rattle.kh_types.specs.Code.{Code, IsCrossing, place_of};
ghost use Rattle.kh_types.specs.Bits.{bit};
ghost use Rattle.kh_types.specs.Acceptance.{accepted};
ghost use Rattle.kh_types.specs.Edges.{JoinsOrParts, MergesOrSplits};

/// Along an edge the circles at the two ends of the crossing's under pass, which are apart, are
/// joined, or the edge does this backwards; all else stays.
pub fn edges_join_or_part()
    ensures { (code : Code) (state crossing : ℕ) → IsTrue (accepted code)
        → IsCrossing code.crossings crossing → bit state (place_of crossing) ≡ 0
        → JoinsOrParts code state crossing }
{}

/// Along an edge two circles become one, or one becomes two: with their names, the circles that the
/// crossing touches, the number of circles, and what is on each circle before and after.
pub fn edges_merge_or_split()
    ensures { (code : Code) (state crossing : ℕ) → IsTrue (accepted code)
        → IsCrossing code.crossings crossing → bit state (place_of crossing) ≡ 0
        → MergesOrSplits code state crossing }
{}
