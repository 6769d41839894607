//! The circles, the edges and the generators of known diagrams, as the definitions compute them.

ghost use Rattle.std.specs.Prelude.{◌≡◌, map, [], ◌∷◌};
ghost use Rattle.std.specs.List.{range_with_len};
ghost use Rattle.kh_types.specs.Circles.{circle_count};
ghost use Rattle.kh_types.specs.Differential.{touched};
ghost use Rattle.kh_types.specs.Generators.{states};
ghost use Rattle.kh_types.specs.WorkedCodes.{empty_link, one_loop, curl, hopf_link};
ghost use Rattle.kh_types.specs.WorkedCodes.{trefoil, figure_eight, virtual_trefoil};
ghost use Rattle.kh_types.specs.CircleNumbers.{circle_number};
ghost use Rattle.circle_smoothing.specs.Edges.{IsEdge, touched_numbers};
ghost use Rattle.circle_smoothing.specs.GeneratorCounts.{generator_count};
ghost use Rattle.circle_smoothing.specs.declared.change.Edge.TheVariants.{Merge, Split};

/// The numbers of circles of all states, and of generators. A loop is one circle in each state.
pub fn known_counts()
    ensures empty { map (circle_count empty_link) (states empty_link) ≡ 0 ∷ [] }
    ensures loops { map (circle_count (record empty_link { loops = 3 })) (0 ∷ []) ≡ 3 ∷ [] }
    ensures curled { map (circle_count curl) (states curl) ≡ 2 ∷ 1 ∷ [] }
    ensures curled_beside { map (circle_count (record curl { loops = 2 })) (states curl)
        ≡ 4 ∷ 3 ∷ [] }
    ensures hopf { map (circle_count hopf_link) (states hopf_link) ≡ 2 ∷ 1 ∷ 1 ∷ 2 ∷ [] }
    ensures three { map (circle_count trefoil) (states trefoil)
        ≡ 3 ∷ 2 ∷ 2 ∷ 1 ∷ 2 ∷ 1 ∷ 1 ∷ 2 ∷ [] }
    ensures four { map (circle_count figure_eight) (states figure_eight)
        ≡ 3 ∷ 2 ∷ 2 ∷ 1 ∷ 2 ∷ 1 ∷ 1 ∷ 2 ∷ 2 ∷ 1 ∷ 1 ∷ 2 ∷ 3 ∷ 2 ∷ 2 ∷ 3 ∷ [] }
    ensures empty_generators { generator_count empty_link ≡ 1 }
    ensures loop_generators { generator_count one_loop ≡ 2 }
    ensures curl_generators { generator_count curl ≡ 6 }
    ensures hopf_generators { generator_count hopf_link ≡ 12 }
    ensures three_generators { generator_count trefoil ≡ 30 }
    ensures four_generators { generator_count figure_eight ≡ 66 }
{}

/// The numbers of the circles of arcs: in the trefoil's state of 0-smoothings, of arcs 1 and 4, 2
/// and 5, 3 and 6; in that of 1-smoothings, of the odd arcs and the even. Behind the arcs come the
/// loops. The edge at the first crossing merges the circles 0 and 1, and the circle 2 becomes the
/// circle 1.
pub fn known_numbers()
    ensures zeros { map (circle_number trefoil 0) (range_with_len 1 6)
        ≡ 0 ∷ 1 ∷ 2 ∷ 0 ∷ 1 ∷ 2 ∷ [] }
    ensures ones { map (circle_number trefoil 7) (range_with_len 1 6) ≡ 0 ∷ 1 ∷ 0 ∷ 1 ∷ 0 ∷ 1 ∷ [] }
    ensures merged { map (circle_number trefoil 1) (range_with_len 1 6)
        ≡ 0 ∷ 0 ∷ 1 ∷ 0 ∷ 0 ∷ 1 ∷ [] }
    ensures loops { map (circle_number (record curl { loops = 2 }) 0) (range_with_len 1 4)
        ≡ 0 ∷ 1 ∷ 2 ∷ 3 ∷ [] }
{}

/// Edges. Of the trefoil's first merges one is of the circles 1 and 2, and one of 0 and 2; its last
/// edges split the one circle. A split of the figure eight puts the new circle behind another,
/// which keeps its number. Without a checkerboard an edge can do neither: a crossing of the virtual
/// trefoil touches one circle before and one behind.
pub fn known_edges()
    ensures curled { IsEdge curl 0 1 (Merge 0 1 0) }
    ensures hopf_merge { IsEdge hopf_link 0 2 (Merge 0 1 0) }
    ensures hopf_split { IsEdge hopf_link 1 2 (Split 0 0 1) }
    ensures three_first { IsEdge trefoil 0 1 (Merge 0 1 0) }
    ensures three_second { IsEdge trefoil 0 2 (Merge 0 2 0) }
    ensures three_third { IsEdge trefoil 0 3 (Merge 1 2 1) }
    ensures three_last { IsEdge trefoil 3 3 (Split 0 0 1) }
    ensures four_later { IsEdge figure_eight 4 4 (Split 1 1 2) }
    ensures four_behind { IsEdge figure_eight 11 3 (Split 0 0 2) }
    ensures neither { (touched_numbers virtual_trefoil 1 2 ≡ 0 ∷ [])
        × (touched_numbers virtual_trefoil 3 2 ≡ 0 ∷ []) }
{}
