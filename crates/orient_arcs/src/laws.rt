//! Laws of the definitions: each is the contract of a function that does nothing, proved with the
//! crate.

pub mod alike;
pub mod renumbered;
pub mod worked;

ghost use Rattle.std.specs.Prelude.{◌≡◌, ◌↔◌, ℕ, ◌+◌, ◌<◌, ◌≤◌, List, [], ◌∷◌, IsTrue};
ghost use Rattle.kh_types.specs.Code.{Code, IsArc};
ghost use Rattle.kh_types.specs.Components.{components_of, component_of, component_count, first_arcs, arcs_in, next};
ghost use Rattle.kh_types.specs.Acceptance.{accepted};
ghost use Rattle.kh_types.specs.WorkedCodes.{one_loop, two_curls, over_circle, hopf_link, trefoil, figure_eight};
ghost use Rattle.orient_arcs.specs.Numbers.{component_number, first_arc, end_of, GoesRound};

/// Components are numbered from 0 by their least arcs: the number of an arc's component is below
/// their count, and two arcs have one number exactly where they are in one component; the first arc
/// of a component is its least; it has the component's number, and the later of two components has
/// the greater one.
pub fn components_are_numbered_by_their_least_arcs()
    ensures within { (code : Code) (arc : ℕ) → IsTrue (accepted code) → IsArc code.crossings arc
        → component_number code.crossings arc < component_count code.crossings }
    ensures together { (code : Code) (arc other : ℕ) → IsTrue (accepted code)
        → IsArc code.crossings arc → IsArc code.crossings other
        → (component_number code.crossings arc ≡ component_number code.crossings other)
        ↔ (component_of (components_of code.crossings) arc
        ≡ component_of (components_of code.crossings) other) }
    ensures least { (code : Code) (arc : ℕ) → IsTrue (accepted code) → IsArc code.crossings arc
        → first_arc code.crossings (component_number code.crossings arc) ≤ arc }
    ensures back { (crossings : List (List ℕ)) (component : ℕ)
        → component < component_count crossings
        → component_number crossings (first_arc crossings component) ≡ component }
    ensures ascending { (crossings : List (List ℕ)) (component later : ℕ)
        → component < later → later < component_count crossings
        → first_arc crossings component < first_arc crossings later }
{}

/// The next of an arc is in its component, and no other arc has it as its next. The arcs of a
/// component are the numbers from its first arc on, as many as it has; the next of the last of them
/// is the first, and of any other the number that follows.
pub fn arcs_follow_one_another_round_components()
    ensures stays { (code : Code) (arc : ℕ) → IsTrue (accepted code) → IsArc code.crossings arc
        → component_number code.crossings (next code.crossings arc)
        ≡ component_number code.crossings arc }
    ensures once { (code : Code) (arc other : ℕ) → IsTrue (accepted code)
        → IsArc code.crossings arc → IsArc code.crossings other
        → next code.crossings arc ≡ next code.crossings other → arc ≡ other }
    ensures interval { (code : Code) (arc other : ℕ) → IsTrue (accepted code)
        → IsArc code.crossings arc → component_of (components_of code.crossings) arc ≤ other
        → other < end_of code.crossings arc → IsArc code.crossings other
        × (component_number code.crossings other ≡ component_number code.crossings arc) }
    ensures round { (code : Code) (arc : ℕ) → IsTrue (accepted code) → IsArc code.crossings arc
        → GoesRound code.crossings arc }
{}

/// The trefoil is one component of six arcs, the figure eight knot one of eight; the Hopf link, two
/// curls and a circle over another are two of two arcs each. A loop is no component here.
pub fn known_diagrams_have_these_components()
    ensures three { first_arcs trefoil.crossings ≡ 1 ∷ [] }
    ensures three_length { arcs_in (components_of trefoil.crossings) 1 ≡ 6 }
    ensures three_next { next trefoil.crossings 3 ≡ 4 }
    ensures three_wraps { next trefoil.crossings 6 ≡ 1 }
    ensures four { first_arcs figure_eight.crossings ≡ 1 ∷ [] }
    ensures four_length { arcs_in (components_of figure_eight.crossings) 1 ≡ 8 }
    ensures hopf { first_arcs hopf_link.crossings ≡ 1 ∷ 3 ∷ [] }
    ensures hopf_number { component_number hopf_link.crossings 4 ≡ 1 }
    ensures hopf_first_length { arcs_in (components_of hopf_link.crossings) 1 ≡ 2 }
    ensures hopf_second_length { arcs_in (components_of hopf_link.crossings) 3 ≡ 2 }
    ensures hopf_wraps { next hopf_link.crossings 2 ≡ 1 }
    ensures hopf_last_wraps { next hopf_link.crossings 4 ≡ 3 }
    ensures curls { first_arcs two_curls.crossings ≡ 1 ∷ 3 ∷ [] }
    ensures curls_number { component_number two_curls.crossings 2 ≡ 0 }
    ensures over { first_arcs over_circle.crossings ≡ 1 ∷ 3 ∷ [] }
    ensures loop_alone { component_count one_loop.crossings ≡ 0 }
{}
