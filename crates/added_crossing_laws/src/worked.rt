//! Crossings of the trefoil, of the Hopf link and of a curl, one by one.

ghost use Rattle.std.specs.Prelude.{◌≡◌, [], ◌∷◌, map};
ghost use Rattle.kh_types.specs.WorkedCodes.{curl, hopf_link, one_loop, trefoil};
ghost use Rattle.surface_laws.specs.Surfaces.{HasGenus};
ghost use Rattle.added_crossing_laws.specs.Codes.{circles_before, closed_at, discs_behind, pairing_behind, points_at};
ghost use Rattle.added_crossing_laws.specs.Entries.{closed_label, label_behind, saddle_surface};
ghost use Rattle.added_crossing_laws.specs.Saddles.{pairing_of};
ghost use Rattle.added_crossing_laws.specs.Worked.{edges_to, entries_from, first_saddle, labels_of_two, merging_to, one_pairs, splitting_from, zero_pairs};

/// After the trefoil's first crossing its four arcs are open; after the second, at which arcs 1
/// and 4 end, four others are. A loop stays alive, and is never open.
pub fn open_arcs()
    ensures none { (points_at trefoil 0).opened ≡ [] }
    ensures first { (points_at trefoil 1).opened ≡ 1 ∷ 2 ∷ 4 ∷ 5 ∷ [] }
    ensures second { (points_at trefoil 2).opened ≡ 2 ∷ 3 ∷ 5 ∷ 6 ∷ [] }
    ensures alive { (points_at trefoil 1).alive ≡ 1 ∷ 2 ∷ 3 ∷ 4 ∷ 5 ∷ 6 ∷ [] }
    ensures gone { (points_at trefoil 2).alive ≡ 2 ∷ 3 ∷ 5 ∷ 6 ∷ [] }
    ensures closed { (points_at one_loop 0).opened ≡ [] }
    ensures alone { (points_at one_loop 0).alive ≡ 1 ∷ [] }
{}

/// The Hopf link's first crossing pairs four arcs in two ways and closes nothing. Both pairings
/// together make one disc, and the saddle is this disc without a dot: a sphere by its two half
/// strips at the crossing, and by those that the open arcs take back.
pub fn first_crossing()
    ensures zero { pairing_behind hopf_link 0 0 [] ≡ zero_pairs }
    ensures one { pairing_behind hopf_link 0 1 [] ≡ one_pairs }
    ensures closed_zero { closed_at hopf_link 0 0 [] ≡ [] }
    ensures closed_one { closed_at hopf_link 0 1 [] ≡ [] }
    ensures discs { discs_behind hopf_link 0 0 1 [] [] ≡ 1 ∷ [] }
    ensures saddle { first_saddle 0 0 ≡ 1 ∷ 0 ∷ [] }
    ensures sphere { HasGenus (saddle_surface hopf_link 0 [] 0 0 0) 1 0 }
{}

/// At the second crossing the 0-smoothing closes two circles of the first pairing, and the
/// 1-smoothing one: the saddle's numbers are the merge table, and so are the edge's coefficients.
/// With its five faces and three strips the saddle is a sphere.
pub fn second_crossing_merges()
    ensures two { closed_at hopf_link 1 0 zero_pairs ≡ 1 ∷ 2 ∷ [] }
    ensures one { closed_at hopf_link 1 1 zero_pairs ≡ 1 ∷ [] }
    ensures nothing { pairing_behind hopf_link 1 0 zero_pairs ≡ [] }
    ensures to_plus { merging_to 0 0 0 ≡ 1 ∷ 0 ∷ 0 ∷ 0 ∷ [] }
    ensures to_minus { merging_to 0 0 1 ≡ 0 ∷ 1 ∷ 1 ∷ 0 ∷ [] }
    ensures edge_plus { edges_to 0 0 0 ≡ 1 ∷ 0 ∷ 0 ∷ 0 ∷ [] }
    ensures edge_minus { edges_to 0 0 1 ≡ 0 ∷ 1 ∷ 1 ∷ 0 ∷ [] }
    ensures deformed { merging_to 1 6 1 ≡ 0 ∷ 1 ∷ 1 ∷ 1 ∷ [] }
    ensures deformed_edge { edges_to 1 6 1 ≡ 0 ∷ 1 ∷ 1 ∷ 1 ∷ [] }
    ensures sphere { HasGenus (saddle_surface hopf_link 1 zero_pairs 0 0 0) 1 0 }
{}

/// Of the other pairing it closes one circle, and then two: the numbers are the split table.
pub fn second_crossing_splits()
    ensures one { closed_at hopf_link 1 0 one_pairs ≡ 1 ∷ [] }
    ensures two { closed_at hopf_link 1 1 one_pairs ≡ 1 ∷ 2 ∷ [] }
    ensures of_plus { splitting_from 0 0 0 ≡ 0 ∷ 1 ∷ 1 ∷ 0 ∷ [] }
    ensures of_minus { splitting_from 0 0 1 ≡ 0 ∷ 0 ∷ 0 ∷ 1 ∷ [] }
    ensures deformed { splitting_from 1 6 0 ≡ 6 ∷ 1 ∷ 1 ∷ 0 ∷ [] }
{}

/// Between the crossings, discs without dots are the identity. A dot on the first disc leads from
/// v+ on the first circle to v-, and from v- nowhere, or to h times v-.
pub fn entries_between()
    ensures identity { entries_from 0 0 0 1 ≡ 0 ∷ 1 ∷ 0 ∷ 0 ∷ [] }
    ensures dot { entries_from 0 0 1 2 ≡ 0 ∷ 0 ∷ 0 ∷ 1 ∷ [] }
    ensures nowhere { entries_from 0 0 1 1 ≡ 0 ∷ 0 ∷ 0 ∷ 0 ∷ [] }
    ensures deformed { entries_from 1 6 1 1 ≡ 0 ∷ 1 ∷ 0 ∷ 0 ∷ [] }
{}

/// A curl closes two circles, or one. All labels are those of closed circles: none is left for
/// circles after it.
pub fn curls_close_circles()
    ensures circles { circles_before curl 0 0 0 [] ≡ 1 ∷ 2 ∷ [] }
    ensures zero { closed_at curl 0 0 [] ≡ 1 ∷ 2 ∷ [] }
    ensures one { closed_at curl 0 1 [] ≡ 1 ∷ [] }
    ensures labels { map (closed_label curl 0 0 0 []) labels_of_two ≡ labels_of_two }
    ensures left { map (label_behind curl 0 0 0 []) labels_of_two ≡ 0 ∷ 0 ∷ 0 ∷ 0 ∷ [] }
{}

/// The pairings that states make of the trefoil's arcs: of one crossing, of two, and of all.
pub fn pairings_of_states()
    ensures one { pairing_of trefoil 0 1 ≡ (1, 4) ∷ (2, 5) ∷ [] }
    ensures zeros { pairing_of trefoil 0 2 ≡ (2, 5) ∷ (3, 6) ∷ [] }
    ensures ones { pairing_of trefoil 3 2 ≡ (2, 6) ∷ (3, 5) ∷ [] }
    ensures all { pairing_of trefoil 3 3 ≡ [] }
{}
