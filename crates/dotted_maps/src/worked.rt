//! Compositions of small pairings, computed from the definitions.

ghost use Rattle.std.specs.Prelude.{◌≡◌, List, [], ◌∷◌, map};
ghost use Rattle.surface_laws.specs.Points.{discs};
ghost use Rattle.dotted_maps.specs.Composition.{composed};
ghost use Rattle.dotted_maps.specs.Maps.{identity};
ghost use Rattle.dotted_maps.specs.Choices.{listed, listed_with};
ghost use Rattle.dotted_maps.specs.Worked.{four_arcs, across, along, six_arcs, beside_12, beside_23, beside_34, times_dots};

/// There and back between the two pairings of four arcs: a dot on either disc, and k times none; with
/// a dot, on both.
pub fn saddles_compose()
    ensures plain { map (composed 0 0 four_arcs across along across 0 0) (0 ∷ 1 ∷ 2 ∷ 3 ∷ []) ≡ 0 ∷ 1 ∷ 1 ∷ 0 ∷ [] }
    ensures dotted { map (composed 0 0 four_arcs across along across 1 0) (0 ∷ 1 ∷ 2 ∷ 3 ∷ []) ≡ 0 ∷ 0 ∷ 0 ∷ 1 ∷ [] }
    ensures deformed { map (composed 1 6 four_arcs across along across 0 0) (0 ∷ 1 ∷ 2 ∷ 3 ∷ []) ≡ 6 ∷ 1 ∷ 1 ∷ 0 ∷ [] }
    ensures listed { listed four_arcs across along across identity identity ≡ times_dots 1 1 ∷ times_dots 1 2 ∷ [] }
    ensures listed_with { listed_with 1 6 four_arcs across along across identity identity
        ≡ times_dots 0 3 ∷ times_dots 1 1 ∷ times_dots 1 2 ∷ times_dots 6 0 ∷ [] }
{}

/// Three pairings, each drawn without crossings, that make a torus, by one disc of each two of
/// them: twice the dotted disc.
pub fn tori_count_twice()
    ensures discs { map (discs six_arcs beside_12) (beside_23 ∷ beside_34 ∷ []) ≡ (1 ∷ []) ∷ (1 ∷ []) ∷ [] }
    ensures last_discs { discs six_arcs beside_23 beside_34 ≡ 1 ∷ [] }
    ensures plain { map (composed 0 0 six_arcs beside_12 beside_23 beside_34 0 0) (0 ∷ 1 ∷ []) ≡ 0 ∷ 2 ∷ [] }
    ensures listed { listed six_arcs beside_12 beside_23 beside_34 identity identity ≡ times_dots 2 1 ∷ [] }
{}
