//! Where arcs begin and end in an accepted code.

ghost use Rattle.std.specs.Prelude.{ℕ, List, IsTrue, MatchBool};
ghost use Rattle.kh_types.specs.Code.{Code, IsArc, IsCrossing};
ghost use Rattle.kh_types.specs.Directions.{is_positive, HasNoSingleArcs, HasEnds, IsPass};
ghost use Rattle.kh_types.specs.Acceptance.{accepted};
ghost use Rattle.kh_types.specs.Accepted.{IsDirected};

/// An accepted code is directed, and none of its components has a single arc. Where this is so,
/// each arc has one head and one tail, which are its two darts; the under pass of a crossing goes
/// from slot 0 to slot 2, and its over pass from slot 3 to slot 1 where it is positive, from slot 1
/// to slot 3 where it is not, each from an arc to the next.
pub fn heads_and_tails_of_accepted_codes()
    ensures directed { (code : Code) → IsTrue (accepted code)
        → IsDirected code.crossings × HasNoSingleArcs code.crossings }
    ensures ends { (crossings : List (List ℕ)) → IsDirected crossings → HasNoSingleArcs crossings
        → (arc : ℕ) → IsArc crossings arc → HasEnds crossings arc }
    ensures under { (crossings : List (List ℕ)) → IsDirected crossings → HasNoSingleArcs crossings
        → (crossing : ℕ) → IsCrossing crossings crossing → IsPass crossings crossing 0 2 }
    ensures over { (crossings : List (List ℕ)) → IsDirected crossings → HasNoSingleArcs crossings
        → (crossing : ℕ) → IsCrossing crossings crossing
        → MatchBool (is_positive crossings crossing)
        (IsPass crossings crossing 3 1) (IsPass crossings crossing 1 3) }
{}
