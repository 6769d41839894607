//! What moves leave, renumbered.

ghost use Rattle.std.specs.Prelude.{◌≡◌, ◌≢◌, ◌≤◌, ◌<◌, ◌+◌, ℕ, ℤ, IsTrue, length};
ghost use Rattle.kh_types.specs.Acceptance.{accepted};
ghost use Rattle.kh_types.specs.Circles.{circle_count};
ghost use Rattle.kh_types.specs.Components.{component_count};
ghost use Rattle.kh_types.specs.Directions.{is_positive};
ghost use Rattle.kh_types.specs.StateSum.{state_sum};
ghost use Rattle.kh_types.specs.declared.limits.TheConstants.{COMPONENTS};
ghost use Rattle.code_passes.specs.Parts.{Parts, is_positive_at};
ghost use Rattle.gluing_laws.specs.Arcs.{arc_by_place};
ghost use Rattle.orient_arcs.specs.Renumbered.{renumber};
ghost use Rattle.kink_and_finger_laws.specs.DropCircles.{parts_circle_count, parts_sum};
ghost use Rattle.kink_and_finger_laws.specs.DropComponents.{parts_component_count};
ghost use Rattle.diagram_moves.specs.Joinable.{IsJoinable};

/// Crossings over any names, whose arcs have a head and a tail each and which are on the sphere,
/// become an accepted code where their components and loops are few enough. It has their
/// components, their signs, the circles of each of their states and their state sum. At none of
/// them is the over pass a component of one arc.
pub fn planar_parts_become_accepted_codes()
    ensures accepted { (bound : ℕ) (parts : Parts) → IsJoinable bound parts
        → parts_component_count bound parts ≤ COMPONENTS → IsTrue (accepted (renumber parts)) }
    ensures components { (bound : ℕ) (parts : Parts) → IsJoinable bound parts
        → component_count (renumber parts).crossings + (renumber parts).loops
        ≡ parts_component_count bound parts }
    ensures over { (bound : ℕ) (parts : Parts) → IsJoinable bound parts → (place : ℕ)
        → place < length parts.crossings
        → arc_by_place parts.crossings place 1 ≢ arc_by_place parts.crossings place 3 }
    ensures signs { (bound : ℕ) (parts : Parts) → IsJoinable bound parts → (place : ℕ)
        → place < length parts.crossings
        → is_positive (renumber parts).crossings (place + 1) ≡ is_positive_at parts.positive place }
    ensures circles { (bound : ℕ) (parts : Parts) → IsJoinable bound parts → (state : ℕ)
        → circle_count (renumber parts) state ≡ parts_circle_count bound parts state }
    ensures sums { (bound : ℕ) (parts : Parts) → IsJoinable bound parts → (exponent : ℤ)
        → state_sum (renumber parts) exponent ≡ parts_sum bound parts exponent }
{}
