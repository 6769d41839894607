//! Diagrams of one link, and of two; and known values of survivors and of s.

ghost use Rattle.std.specs.Prelude.{◌≡◌, pos, neg_ℤ, map, [], ◌∷◌};
ghost use Rattle.kh_types.specs.WorkedCodes.{curl, hopf_link, one_loop, trefoil};
ghost use Rattle.link_algebra.specs.Mirrors.{mirror_of};
ghost use Rattle.link_laws.specs.CodeSurvivors.{code_survivors};
ghost use Rattle.link_laws.specs.LastPages.{deformed_count, s};
ghost use Rattle.link_laws.specs.Links.{AreOneLink};
ghost use Rattle.link_laws.specs.WorkedLinks.{circle_before, circle_behind, kinked_trefoil, turned_trefoil_list};

/// The curl is the unknot; the trefoil with a kink is the trefoil with its crossings in another
/// order; a circle slides over a curl. The trefoil is not the unknot, and not its mirror.
pub fn worked_links()
    ensures curl { AreOneLink curl one_loop }
    ensures trefoils { AreOneLink kinked_trefoil turned_trefoil_list }
    ensures circles { AreOneLink circle_before circle_behind }
    ensures knotted { AreOneLink trefoil one_loop → ⊥ }
    ensures chiral { AreOneLink trefoil (mirror_of trefoil) → ⊥ }
{}

/// Of the left-handed trefoil both classes of degree 0 survive from -3 on, and one from -1 on; of
/// the unknot with a curl both from -1 on, and one from 1 on.
pub fn known_survivors()
    ensures code_survivors_trefoil { map (code_survivors 3 1 trefoil (pos 0))
        (neg_ℤ (pos 4) ∷ neg_ℤ (pos 3) ∷ neg_ℤ (pos 2) ∷ neg_ℤ (pos 1) ∷ pos 0 ∷ []) ≡ 2 ∷ 2 ∷ 1 ∷ 1 ∷ 0 ∷ [] }
    ensures code_survivors_curl { map (code_survivors 3 1 curl (pos 0))
        (neg_ℤ (pos 2) ∷ neg_ℤ (pos 1) ∷ pos 0 ∷ pos 1 ∷ pos 2 ∷ []) ≡ 2 ∷ 2 ∷ 1 ∷ 1 ∷ 0 ∷ [] }
{}

/// The deformed homology of the left-handed trefoil has two classes over two and over three elements,
/// both of degree 0; that of the Hopf link four, two of degree -2 and two of degree 0. (A link with c
/// components has 2 to the power c, which is cited on the page about s and not proved.)
pub fn known_deformed_counts()
    ensures deformed_count_trefoil { (map (deformed_count 2 trefoil)
        (neg_ℤ (pos 3) ∷ neg_ℤ (pos 2) ∷ neg_ℤ (pos 1) ∷ pos 0 ∷ []) ≡ 0 ∷ 0 ∷ 0 ∷ 2 ∷ [])
        × (map (deformed_count 3 trefoil)
        (neg_ℤ (pos 3) ∷ neg_ℤ (pos 2) ∷ neg_ℤ (pos 1) ∷ pos 0 ∷ []) ≡ 0 ∷ 0 ∷ 0 ∷ 2 ∷ []) }
    ensures deformed_count_hopf_link { (map (deformed_count 2 hopf_link)
        (neg_ℤ (pos 2) ∷ neg_ℤ (pos 1) ∷ pos 0 ∷ []) ≡ 2 ∷ 0 ∷ 2 ∷ [])
        × (map (deformed_count 3 hopf_link)
        (neg_ℤ (pos 2) ∷ neg_ℤ (pos 1) ∷ pos 0 ∷ []) ≡ 2 ∷ 0 ∷ 2 ∷ []) }
{}

/// Over the fields of two and of three elements s is 0 for the unknot, as a loop and with a curl,
/// -2 for the left-handed trefoil, and 2 for the right-handed one (Rasmussen 2010).
pub fn known_s()
    ensures s_unknot { (s 2 one_loop ≡ pos 0) × (s 3 one_loop ≡ pos 0) }
    ensures s_curl { (s 2 curl ≡ pos 0) × (s 3 curl ≡ pos 0) }
    ensures s_left { (s 2 trefoil ≡ neg_ℤ (pos 2)) × (s 3 trefoil ≡ neg_ℤ (pos 2)) }
    ensures s_right { (s 2 (mirror_of trefoil) ≡ pos 2) × (s 3 (mirror_of trefoil) ≡ pos 2) }
{}
