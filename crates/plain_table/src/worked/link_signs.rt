//! Signs that tell the rules for directions apart: components of four and of six arcs, at which the
//! rules for components of two arcs would give others, and links of components of two arcs.

ghost use Rattle.std.specs.Prelude.{◌≡◌, [], ◌∷◌, true, false, codes};
ghost use Rattle.kh_types.specs.Acceptance.{accepted};
ghost use Rattle.kh_types.specs.Directions.{is_positive_by_order, plus_count, minus_count};
ghost use Rattle.kh_types.specs.Table.{table, table_text};
ghost use Rattle.kh_types.specs.WorkedCodes.{slots_with, without_loops, hopf_link};

/// The right-handed trefoil, whose component has six arcs, and Solomon's link with two components
/// of four arcs each, all of whose crossings are positive; the Hopf link and a negative curl.
pub fn worked_link_signs()
    ensures plus_count_six_arcs { plus_count
        (slots_with 4 2 5 1 ∷ slots_with 6 4 1 3 ∷ slots_with 2 6 3 5 ∷ []) ≡ 3 }
    ensures plus_count_four_arcs { plus_count (slots_with 1 7 2 6 ∷ slots_with 3 5 4 8
        ∷ slots_with 5 3 6 2 ∷ slots_with 7 1 8 4 ∷ []) ≡ 4 }
    ensures plus_count_hopf { plus_count hopf_link.crossings ≡ 0 }
    ensures minus_count_curl_back { minus_count (slots_with 1 2 2 1 ∷ []) ≡ 1 }
    ensures is_positive_by_order_not { is_positive_by_order (1 ∷ 3 ∷ 2 ∷ 4 ∷ []) true ≡ false }
    ensures is_positive_by_order_second { is_positive_by_order (1 ∷ 3 ∷ 2 ∷ 4 ∷ []) false ≡ true }
{}

/// These codes are accepted, and one whose component of the arcs 1 and 2 passes under in one
/// direction at both crossings is not.
pub fn worked_links_are_accepted()
    ensures accepted_six_arcs { accepted (without_loops
        (slots_with 4 2 5 1 ∷ slots_with 6 4 1 3 ∷ slots_with 2 6 3 5 ∷ [])) ≡ true }
    ensures accepted_four_arcs { accepted (without_loops (slots_with 1 7 2 6 ∷ slots_with 3 5 4 8
        ∷ slots_with 5 3 6 2 ∷ slots_with 7 1 8 4 ∷ [])) ≡ true }
    ensures accepted_curl_back { accepted (without_loops (slots_with 1 2 2 1 ∷ [])) ≡ true }
    ensures accepted_not { accepted (without_loops (slots_with 1 4 2 3 ∷ slots_with 1 3 2 4 ∷ []))
        ≡ false }
{}

/// The tables of the Hopf link with negative crossings, whose components have two arcs each.
pub fn worked_hopf_table()
    ensures table_text_hopf { table_text (table 2 hopf_link)
        ≡ codes "table 2\nfield 2\nj -6 i -2 dim 1\nj -4 i -2 dim 1\nj -2 i 0 dim 1\nj 0 i 0 dim 1\n" }
    ensures table_text_hopf_over_three { table_text (table 3 hopf_link)
        ≡ codes "table 2\nfield 3\nj -6 i -2 dim 1\nj -4 i -2 dim 1\nj -2 i 0 dim 1\nj 0 i 0 dim 1\n" }
{}
