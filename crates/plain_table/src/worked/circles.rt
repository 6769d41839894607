//! Smoothings of crossings, and the circles of the trefoil's states.

ghost use Rattle.std.specs.Prelude.{◌≡◌, [], ◌∷◌};
ghost use Rattle.kh_types.specs.Circles.{smoothing_of, smoothings_of, circles_of, circle_of, circle_names, circle_count};
ghost use Rattle.kh_types.specs.WorkedCodes.{curl, trefoil};

/// What smoothings join. In state 1 the first crossing has its 1-smoothing, and the others their
/// 0-smoothing.
pub fn worked_smoothings()
    ensures smoothing_of { smoothing_of 0 (1 ∷ 4 ∷ 2 ∷ 5 ∷ []) ≡ (1, 4) ∷ (2, 5) ∷ [] }
    ensures smoothing_of_one { smoothing_of 1 (1 ∷ 4 ∷ 2 ∷ 5 ∷ []) ≡ (1, 5) ∷ (4, 2) ∷ [] }
    ensures smoothings_of { smoothings_of trefoil.crossings 1
        ≡ (1, 5) ∷ (4, 2) ∷ (3, 6) ∷ (4, 1) ∷ (5, 2) ∷ (6, 3) ∷ [] }
{}

/// Circles. State 0 of the trefoil has three, of the arcs 1 4, 2 5 and 3 6; state 1 has two, and so
/// has state 7, in which each crossing has its 1-smoothing: they are the Seifert circles. State 1
/// of the curl has one circle, and each loop is one more.
pub fn worked_circles()
    ensures circles_of { circles_of trefoil 0 ≡ 0 ∷ 1 ∷ 2 ∷ 3 ∷ 1 ∷ 2 ∷ 3 ∷ [] }
    ensures circles_of_one { circles_of trefoil 1 ≡ 0 ∷ 1 ∷ 1 ∷ 3 ∷ 1 ∷ 1 ∷ 3 ∷ [] }
    ensures circles_of_loops { circles_of (record curl { loops = 2 }) 1 ≡ 0 ∷ 1 ∷ 1 ∷ 3 ∷ 4 ∷ [] }
    ensures circle_of { circle_of (circles_of trefoil 0) 5 ≡ 2 }
    ensures circle_names { circle_names trefoil 1 ≡ 1 ∷ 3 ∷ [] }
    ensures circle_names_loops { circle_names (record curl { loops = 2 }) 1 ≡ 1 ∷ 3 ∷ 4 ∷ [] }
    ensures circle_count { circle_count trefoil 0 ≡ 3 }
    ensures circle_count_ones { circle_count trefoil 7 ≡ 2 }
{}
