//! What renumbering does.

ghost use Rattle.std.specs.Prelude.{All, ℤ, IsTrue, ◌≡◌, ◌≢◌, ◌<◌, ◌≤◌, ◌-◌, ◌*◌, ◌+◌, ℕ, List, length, MatchBool};
ghost use Rattle.kh_types.specs.Code.{Code, arc_in, slots_of, IsCrossing, IsArc};
ghost use Rattle.kh_types.specs.Components.{next};
ghost use Rattle.kh_types.specs.Directions.{is_positive, HasNoSingleArcs};
ghost use Rattle.kh_types.specs.Accepted.{IsDirected};
ghost use Rattle.code_passes.specs.Parts.{Parts, parts_of, ArePaired, passes_through, head_count, slots_in, is_positive_at};
ghost use Rattle.kh_types.specs.Acceptance.{accepted};
ghost use Rattle.kh_types.specs.StateSum.{state_sum};
ghost use Rattle.orient_arcs.specs.Alike.{IsOf};
ghost use Rattle.orient_arcs.specs.OtherNames.{IsNamedBy, KeepsComponents};
ghost use Rattle.orient_arcs.specs.Renumbered.{AreInOrder, AreOrdered, named_components, order_of, number_in, renumber};

/// Paired parts are renumbered to a directed code, in which the over strand of each crossing goes
/// the way that the parts say. So each crossing keeps its sign, except one whose over pass is a
/// component of one arc.
pub fn renumbered_codes_are_directed()
    ensures directed { (parts : Parts) → ArePaired parts → IsDirected (renumber parts).crossings }
    ensures over { (parts : Parts) → ArePaired parts → (crossing : ℕ) → IsCrossing parts.crossings crossing
        → MatchBool (is_positive_at parts.positive (crossing - 1))
        (arc_in (slots_of (renumber parts).crossings crossing) 1
        ≡ next (renumber parts).crossings (arc_in (slots_of (renumber parts).crossings crossing) 3))
        (arc_in (slots_of (renumber parts).crossings crossing) 3
        ≡ next (renumber parts).crossings (arc_in (slots_of (renumber parts).crossings crossing) 1)) }
    ensures signs { (parts : Parts) → ArePaired parts → (crossing : ℕ) → IsCrossing parts.crossings crossing
        → arc_in (slots_of parts.crossings crossing) 1 ≢ arc_in (slots_of parts.crossings crossing) 3
        → is_positive (renumber parts).crossings crossing ≡ is_positive_at parts.positive (crossing - 1) }
{}

/// Under new numbers each crossing keeps its place and its slots; different names get different
/// numbers, which are arcs.
pub fn numbers_tell_names_apart()
    ensures size { (parts : Parts) → length (renumber parts).crossings ≡ length parts.crossings }
    ensures slots { (parts : Parts) (crossing slot : ℕ) → IsCrossing parts.crossings crossing → slot < 4
        → arc_in (slots_of (renumber parts).crossings crossing) slot
        ≡ number_in (order_of (passes_through parts)) (arc_in (slots_of parts.crossings crossing) slot) }
    ensures apart { (parts : Parts) → ArePaired parts → (name other : ℕ) → 1 ≤ head_count parts name → 1 ≤ head_count parts other
        → number_in (order_of (passes_through parts)) name ≡ number_in (order_of (passes_through parts)) other → name ≡ other }
    ensures arcs { (parts : Parts) → ArePaired parts → (name : ℕ) → 1 ≤ head_count parts name
        → IsArc parts.crossings (number_in (order_of (passes_through parts)) name) }
{}

/// In the list of names components follow one another, by their least names.
pub fn components_stand_in_order()
    ensures { (parts : Parts) → ArePaired parts → AreOrdered parts (named_components (passes_through parts)) }
{}

/// The names have exactly one order: component after component, each from where it begins. The
/// number that renumbering gives to a name is its place in that order, counted from 1.
pub fn names_have_one_order()
    ensures order { (parts : Parts) → ArePaired parts → AreInOrder parts (order_of (passes_through parts)) }
    ensures one { (parts : Parts) (order other : List ℕ) → ArePaired parts → AreInOrder parts order → AreInOrder parts other
        → order ≡ other }
    ensures slots { (parts : Parts) (order : List ℕ) → ArePaired parts → AreInOrder parts order
        → (crossing slot : ℕ) → IsCrossing parts.crossings crossing → slot < 4
        → arc_in (slots_of (renumber parts).crossings crossing) slot
        ≡ number_in order (arc_in (slots_of parts.crossings crossing) slot) }
{}

/// A directed code without single arcs keeps its numbers, where each of its crossings has four
/// slots.
pub fn own_numbers_stay()
    ensures directed { (code : Code) → IsDirected code.crossings → HasNoSingleArcs code.crossings
        → All (λ slots. length slots ≡ 4) code.crossings → renumber (parts_of code) ≡ code }
    ensures accepted { (code : Code) → IsTrue (accepted code)
        → All (λ slots. length slots ≡ 4) code.crossings → renumber (parts_of code) ≡ code }
{}

/// The arcs of an accepted code are paired by its own directions; and parts that are those of an
/// accepted code under other names are renumbered to an accepted code with the same state sum.
pub fn accepted_codes_are_renumbered()
    ensures paired { (code : Code) → IsTrue (accepted code) → ArePaired (parts_of code) }
    ensures directed { (code : Code) → IsDirected code.crossings → HasNoSingleArcs code.crossings → ArePaired (parts_of code) }
    ensures own { (code : Code) → IsOf code (parts_of code) }
    ensures renamed { (code : Code) (parts : Parts) → IsTrue (accepted code) → IsOf code parts → ArePaired parts }
    ensures accepted { (code : Code) (parts : Parts) → IsTrue (accepted code) → IsOf code parts → IsTrue (accepted (renumber parts)) }
    ensures sums { (code : Code) (parts : Parts) → IsTrue (accepted code) → IsOf code parts → (exponent : ℤ)
        → state_sum (renumber parts) exponent ≡ state_sum code exponent }
{}

/// A code's own numbers come back from any names, one for each arc, that keep the order of its
/// components and give each component's least name to its least arc, circles over all that they
/// meet excepted: so from all names that ascend with its arcs.
pub fn own_numbers_come_back()
    ensures crossings { (f : ℕ → ℕ) (code : Code) (parts : Parts) → IsTrue (accepted code)
        → All (λ slots. length slots ≡ 4) code.crossings → ArePaired parts → IsNamedBy f code parts
        → KeepsComponents f code.crossings → (renumber parts).crossings ≡ code.crossings }
    ensures ascending { (f : ℕ → ℕ) (code : Code) → IsTrue (accepted code)
        → ((x y : ℕ) → x < y → f x < f y) → KeepsComponents f code.crossings }
{}
