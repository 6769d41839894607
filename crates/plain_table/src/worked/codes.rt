//! Codes: how crossings and arcs are numbered, and the components of a link.

ghost use Rattle.std.specs.Prelude.{◌≡◌, [], ◌∷◌};
ghost use Rattle.kh_types.specs.Code.{arc_in, place_of, slots_of, crossing_numbers, arc_count, arcs_and_loops};
ghost use Rattle.kh_types.specs.Components.{passes_of, components_of, component_of, arcs_in, next_in};
ghost use Rattle.kh_types.specs.WorkedCodes.{curl, hopf_link, trefoil};

/// The trefoil has three crossings and six arcs. A curl with two loops has the arcs 1 and 2, and
/// the loops are 3 and 4.
pub fn worked_codes()
    ensures Code { trefoil ≡ record {
      crossings = (1 ∷ 4 ∷ 2 ∷ 5 ∷ []) ∷ (3 ∷ 6 ∷ 4 ∷ 1 ∷ []) ∷ (5 ∷ 2 ∷ 6 ∷ 3 ∷ []) ∷ [];
      loops = 0;
    } }
    ensures arc_in { arc_in (1 ∷ 4 ∷ 2 ∷ 5 ∷ []) 1 ≡ 4 }
    ensures place_of { place_of 3 ≡ 2 }
    ensures slots_of { slots_of trefoil.crossings 2 ≡ 3 ∷ 6 ∷ 4 ∷ 1 ∷ [] }
    ensures crossing_numbers { crossing_numbers trefoil.crossings ≡ 1 ∷ 2 ∷ 3 ∷ [] }
    ensures arc_count { arc_count trefoil.crossings ≡ 6 }
    ensures arcs_and_loops { arcs_and_loops (record curl { loops = 2 }) ≡ 1 ∷ 2 ∷ 3 ∷ 4 ∷ [] }
{}

/// The trefoil is one component. The Hopf link has two of two arcs each, 1 2 and 3 4.
pub fn worked_components()
    ensures passes_of { passes_of (1 ∷ 4 ∷ 2 ∷ 5 ∷ []) ≡ (1, 2) ∷ (4, 5) ∷ [] }
    ensures components_of { components_of hopf_link.crossings ≡ 0 ∷ 1 ∷ 1 ∷ 3 ∷ 3 ∷ [] }
    ensures components_of_trefoil { components_of trefoil.crossings
        ≡ 0 ∷ 1 ∷ 1 ∷ 1 ∷ 1 ∷ 1 ∷ 1 ∷ [] }
    ensures component_of { component_of (components_of hopf_link.crossings) 4 ≡ 3 }
    ensures arcs_in { arcs_in (components_of hopf_link.crossings) 3 ≡ 2 }
    ensures arcs_in_trefoil { arcs_in (components_of trefoil.crossings) 1 ≡ 6 }
    ensures next_in { next_in (components_of hopf_link.crossings) 3 ≡ 4 }
    ensures next_in_last { next_in (components_of hopf_link.crossings) 4 ≡ 3 }
    ensures next_in_trefoil { next_in (components_of trefoil.crossings) 6 ≡ 1 }
{}
