//! Worked parts.

ghost use Rattle.std.specs.Prelude.{◌≡◌, ℕ, List, [], ◌∷◌};
ghost use Rattle.kh_types.specs.WorkedCodes.{hopf_link, trefoil, slots_with};
ghost use Rattle.code_passes.specs.Parts.{passes_through};
ghost use Rattle.orient_arcs.specs.Renumbered.{renumber, order_of};
ghost use Rattle.orient_arcs.specs.WorkedParts.{trefoil_parts, named_trefoil, turned_circle, slid_triangle, curl_parts, single, hopf_parts, mirrored, reversed};

/// The trefoil keeps its numbers, and has them under any names. A circle over another has the
/// numbers of its two arcs exchanged.
pub fn worked_parts()
    ensures trefoil { renumber trefoil_parts ≡ trefoil }
    ensures circle_order { order_of (passes_through turned_circle) ≡ 1 ∷ 2 ∷ 4 ∷ 3 ∷ [] }
    ensures circle { (renumber turned_circle).crossings ≡ slots_with 1 4 2 3 ∷ slots_with 2 4 1 3 ∷ [] }
    ensures slid { (renumber slid_triangle).crossings ≡ slots_with 2 6 3 5 ∷ slots_with 3 6 4 5 ∷ slots_with 1 1 2 4 ∷ [] }
    ensures curl { (renumber curl_parts).crossings ≡ slots_with 2 2 1 1 ∷ [] }
    ensures single { (renumber single).crossings ≡ slots_with 2 1 2 1 ∷ [] }
    ensures mirrored { (renumber mirrored).crossings
        ≡ slots_with 4 2 5 1 ∷ slots_with 6 4 1 3 ∷ slots_with 2 6 3 5 ∷ [] }
    ensures reversed { (renumber reversed).crossings
        ≡ slots_with 6 3 1 4 ∷ slots_with 4 1 5 2 ∷ slots_with 2 5 3 6 ∷ [] }
    ensures hopf { renumber hopf_parts ≡ hopf_link }
    ensures named { order_of (passes_through named_trefoil) ≡ 0 ∷ 7 ∷ 2 ∷ 30 ∷ 9 ∷ 4 ∷ [] }
{}
