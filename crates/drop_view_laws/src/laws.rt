//! The circles of a code before and after a kink, or the two crossings of a bigon, are dropped.

ghost use Rattle.std.specs.Prelude.{◌≡◌, ◌<◌, ℕ, ℤ, [], ◌∷◌, List, map, Ok, IsTrue};
ghost use Rattle.kh_types.specs.Acceptance.{accepted};
ghost use Rattle.cell_laws.specs.Cells.{dimension_at};
ghost use Rattle.cell_laws.specs.Cubes.{cube_of};
ghost use Rattle.diagram_moves.specs.Moved.{moved};
ghost use Rattle.diagram_moves.specs.declared.change.Move.TheVariants.{FingerDrop, KinkDrop};
ghost use Rattle.kh_types.specs.Code.{Code, place_of};
ghost use Rattle.kh_types.specs.Residues.{HasInverses};
ghost use Rattle.kh_types.specs.WorkedCodes.{curl, over_circle, two_curls};
ghost use Rattle.kink_and_finger_laws.specs.WorkedDrops.{curl_fingered, curl_kinked};
ghost use Rattle.gluing_laws.specs.Arcs.{arc_by_place};
ghost use Rattle.kink_and_finger_laws.specs.Dropping.{HasBigonAt, HasKinkAt};
ghost use Rattle.kink_and_finger_laws.specs.Drops.{is_of_two, without_finger, without_kink};
ghost use Rattle.orient_arcs.specs.Renumbered.{renumber};
ghost use Rattle.std.specs.Prelude.{nat_eq};
ghost use Rattle.drop_view_laws.specs.DropSigns.{AreBigonSigns, AreKinkSigns};
ghost use Rattle.drop_view_laws.specs.DroppedCubes.{IsBigonCut, IsFingerDrop, IsKinkCut, IsKinkDrop, bigon_first, kink_first};
ghost use Rattle.drop_view_laws.specs.DropViews.{IsBigonView, IsKinkView};
ghost use Rattle.drop_view_laws.specs.NamesLeft.{number_left};

/// Where a crossing with a kink is dropped, each arc and loop has a number in the code that is
/// left; states with the same bits elsewhere have the same circles, seen without the kink's arc,
/// and the kink's arc is a circle of its own where the state closes the kink.
pub fn kinks_are_seen_alike()
    ensures view { (code : Code) (c p : ℕ) → IsTrue (accepted code) → HasKinkAt code.crossings c p
        → IsKinkView code (renumber (without_kink code c)) c p (number_left code (nat_eq c)) }
    ensures signs { (code : Code) (c p : ℕ) → IsTrue (accepted code) → HasKinkAt code.crossings c p
        → AreKinkSigns code (renumber (without_kink code c)) p }
{}

/// So where two crossings that meet in a bigon are dropped, for states that go through both.
pub fn bigons_are_seen_alike()
    ensures view { (code : Code) (c d p q : ℕ) → IsTrue (accepted code)
        → HasBigonAt code.crossings c d p q
        → p < 4 → q < 4 → IsBigonView code (renumber (without_finger code c d)) c d p q
        (arc_by_place code.crossings c p) (arc_by_place code.crossings d q)
        (number_left code (is_of_two c d)) }
    ensures signs { (code : Code) (c d p q : ℕ) → IsTrue (accepted code)
        → HasBigonAt code.crossings c d p q
        → AreBigonSigns code (renumber (without_finger code c d)) }
{}

/// The code with the kink's crossing first is seen through all its arcs and loops but the kink's
/// arc, which closes at one of the two inner states; and at both it is seen as the code that is
/// left.
pub fn kinks_are_cut()
    ensures { (code : Code) (c p : ℕ) → IsTrue (accepted code) → HasKinkAt code.crossings c p
        → IsKinkCut code (renumber (without_kink code c)) c p }
{}

/// The code with the bigon's crossings first is seen through all its arcs and loops but the sides,
/// which close at one of the four inner states; the states 0 and 3 are seen as that one, and the
/// fourth as the code that is left.
pub fn bigons_are_cut()
    ensures { (code : Code) (c d p q : ℕ) → IsTrue (accepted code)
        → HasBigonAt code.crossings c d p q
        → p < 4 → q < 4 → IsBigonCut code (renumber (without_finger code c d)) c d p q }
{}

/// So after a move that drops a kink or a finger, and the code with the crossings first has a cube
/// of the same dimensions.
pub fn drops_are_cut()
    ensures kink { (code new : Code) (crossing : ℕ) → IsTrue (accepted code)
        → moved code (KinkDrop crossing) ≡ Ok new → IsKinkDrop code new (place_of crossing) }
    ensures finger { (code new : Code) (first second : ℕ) → IsTrue (accepted code)
        → moved code (FingerDrop first second) ≡ Ok new
        → IsFingerDrop code new (place_of first) (place_of second) }
    ensures kink_first { (p : ℕ) (code new : Code) (c slot plus minus : ℕ) → HasInverses p
        → IsKinkCut code new c slot → (i j : ℤ)
        → dimension_at p (cube_of p (kink_first code c) plus minus) i j
        ≡ dimension_at p (cube_of p code plus minus) i j }
    ensures bigon_first { (p : ℕ) (code new : Code) (c d slot other_slot plus minus : ℕ)
        → HasInverses p → IsBigonCut code new c d slot other_slot → (i j : ℤ)
        → dimension_at p (cube_of p (bigon_first code c d) plus minus) i j
        ≡ dimension_at p (cube_of p code plus minus) i j }
{}

/// The numbers of the arcs of worked codes where crossings are dropped: those of a curl are a loop;
/// those of two curls, one of them dropped, are the two arcs of the other and a loop; those of a
/// circle over another are two loops.
pub fn worked_numbers()
    ensures curl { map (number_left curl (nat_eq 0)) (1 ∷ 2 ∷ []) ≡ 1 ∷ 1 ∷ [] }
    ensures two { map (number_left two_curls (nat_eq 0)) (1 ∷ 2 ∷ 3 ∷ 4 ∷ [])
        ≡ 3 ∷ 3 ∷ 1 ∷ 2 ∷ [] }
    ensures kinked { map (number_left curl_kinked (nat_eq 1)) (1 ∷ 2 ∷ 3 ∷ 4 ∷ [])
        ≡ 1 ∷ 1 ∷ 1 ∷ 2 ∷ [] }
    ensures over { map (number_left over_circle (is_of_two 0 1)) (1 ∷ 2 ∷ 3 ∷ 4 ∷ [])
        ≡ 1 ∷ 1 ∷ 2 ∷ 2 ∷ [] }
    ensures fingered { map (number_left curl_fingered (is_of_two 0 1)) (1 ∷ 2 ∷ 3 ∷ 4 ∷ 5 ∷ 6 ∷ [])
        ≡ 1 ∷ 1 ∷ 2 ∷ 2 ∷ 2 ∷ 1 ∷ [] }
{}
