//! The numbers of circles in an accepted code, and what becomes of them along an edge.

ghost use Rattle.std.specs.Prelude.{◌≡◌, ◌↔◌, ℕ, ◌<◌, IsTrue, slice_index};
ghost use Rattle.kh_types.specs.Code.{Code, IsCrossing, place_of};
ghost use Rattle.kh_types.specs.Bits.{bit};
ghost use Rattle.kh_types.specs.Acceptance.{accepted};
ghost use Rattle.kh_types.specs.Circles.{circles_of, circle_of, circle_names, circle_count};
ghost use Rattle.kh_types.specs.CircleNumbers.{IsName, circle_number};
ghost use Rattle.circle_smoothing.specs.Edges.{IsEdge, Renumbers};
ghost use Rattle.circle_smoothing.specs.declared.change.Edge.{Edge};

/// The circle of an arc or a loop stands among the circles at its number, which is below their
/// number. Two of them have one number exactly where they are on one circle, and a circle with a
/// lesser least arc has a lesser number.
pub fn circle_numbers_are_places()
    ensures place { (code : Code) (state name : ℕ) → IsTrue (accepted code) → IsName code name
        → slice_index (circle_names code state) (circle_number code state name)
        ≡ circle_of (circles_of code state) name }
    ensures below { (code : Code) (state name : ℕ) → IsTrue (accepted code) → IsName code name
        → circle_number code state name < circle_count code state }
    ensures same { (code : Code) (state name other : ℕ) → IsTrue (accepted code)
        → IsName code name → IsName code other
        → (circle_number code state name ≡ circle_number code state other)
        ↔ (circle_of (circles_of code state) name ≡ circle_of (circles_of code state) other) }
    ensures order { (code : Code) (state name other : ℕ) → IsTrue (accepted code)
        → IsName code name → IsName code other
        → circle_of (circles_of code state) name < circle_of (circles_of code state) other
        → circle_number code state name < circle_number code state other }
{}

/// In a merge of two circles, `a` below `b`, their circle keeps the number `a`, and each number
/// above `b` moves down by one; all other circles keep theirs. In a split this is so backwards: the
/// circle keeps its number as `a`, the other comes in at `b`, and the numbers from there on move
/// up.
pub fn edges_renumber_circles()
    ensures { (code : Code) (state crossing : ℕ) (change : Edge) → IsTrue (accepted code)
        → IsCrossing code.crossings crossing → bit state (place_of crossing) ≡ 0
        → IsEdge code state crossing change → Renumbers code state crossing change }
{}

/// Each edge does one thing, and no other.
pub fn each_edge_has_one_change()
    ensures some { (code : Code) (state crossing : ℕ) → IsTrue (accepted code)
        → IsCrossing code.crossings crossing → bit state (place_of crossing) ≡ 0
        → (change : Edge) × IsEdge code state crossing change }
    ensures one { (code : Code) (state crossing : ℕ) (change other : Edge)
        → IsEdge code state crossing change → IsEdge code state crossing other → change ≡ other }
{}
