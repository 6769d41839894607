//! What labels and signs of components stand for: a directed code, whose crossings have these
//! signs.

ghost use Rattle.std.specs.Prelude.{◌≡◌, ◌≢◌, ◌-◌, ℕ, ℤ, List, length, pos, None};
ghost use Rattle.std.specs.List.{All, flat_map};
ghost use Rattle.std.specs.Ordering.{int_eq};
ghost use Rattle.kh_types.specs.Code.{IsArc, IsCrossing};
ghost use Rattle.kh_types.specs.Components.{next};
ghost use Rattle.kh_types.specs.Directions.{is_positive, HasEnds, HasNoSingleArcs};
ghost use Rattle.kh_types.specs.Accepted.{IsDirected};
ghost use Rattle.code_passes.specs.Labels.{bad_label, listed_number};
ghost use Rattle.code_passes.specs.Passes.{crossings_of};

/// Where no label of some components is bad, their crossings are a directed code, whatever the
/// signs are.
pub fn listed_components_are_directed()
    ensures { (components : List (List ℤ)) (signs : List ℤ)
        → bad_label (flat_map (λ labels. labels) components) ≡ None
        → IsDirected (crossings_of components signs) }
{}

/// Where no component has a single arc, which is so where none has one label alone, each crossing
/// has the sign that is listed.
pub fn listed_components_have_their_signs()
    ensures many { (components : List (List ℤ)) (signs : List ℤ)
        → bad_label (flat_map (λ labels. labels) components) ≡ None
        → All (λ labels. length labels ≢ 1) components
        → HasNoSingleArcs (crossings_of components signs) }
    ensures positive { (components : List (List ℤ)) (signs : List ℤ)
        → bad_label (flat_map (λ labels. labels) components) ≡ None
        → HasNoSingleArcs (crossings_of components signs) → (crossing : ℕ)
        → IsCrossing (crossings_of components signs) crossing
        → is_positive (crossings_of components signs) crossing
        ≡ int_eq (listed_number signs (crossing - 1)) (pos 1) }
{}

/// Each arc of a directed code that is in a component of two arcs or more, and so is not its own
/// next, has one head and one tail, which are its two darts, whatever the other components are.
pub fn arcs_have_two_ends()
    ensures { (crossings : List (List ℕ)) → IsDirected crossings → (arc : ℕ)
        → IsArc crossings arc → next crossings arc ≢ arc → HasEnds crossings arc }
{}
