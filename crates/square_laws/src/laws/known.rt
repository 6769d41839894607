//! Squares of known diagrams, and a code without a checkerboard whose differential does not square
//! to zero.

ghost use Rattle.std.specs.Prelude.{◌≡◌, Some, map, pos, neg_ℤ, [], ◌∷◌};
ghost use Rattle.kh_types.specs.Acceptance.{first_fault};
ghost use Rattle.kh_types.specs.Circles.{circle_count};
ghost use Rattle.kh_types.specs.Complex.{product_entry};
ghost use Rattle.kh_types.specs.Generators.{states};
ghost use Rattle.kh_types.specs.History.{block};
ghost use Rattle.kh_types.specs.WorkedCodes.{two_curls, over_circle, hopf_link};
ghost use Rattle.kh_types.specs.declared.fault.CodeFault.TheVariants.{Checkerboard};
ghost use Rattle.square_laws.specs.VirtualCodes.{changed_virtual_trefoil};

/// All kinds of squares occur, by the numbers of circles without a 1-smoothing, with each of the
/// two, and with both: two curls merge circles in either order; the crossings of the Hopf link
/// merge first and split second; and those of a circle that lies over another split first and merge
/// second.
pub fn known_squares()
    ensures same { map (circle_count two_curls) (states two_curls) ≡ 4 ∷ 3 ∷ 3 ∷ 2 ∷ [] }
    ensures merge_first { map (circle_count hopf_link) (states hopf_link) ≡ 2 ∷ 1 ∷ 1 ∷ 2 ∷ [] }
    ensures split_first { map (circle_count over_circle) (states over_circle) ≡ 1 ∷ 2 ∷ 2 ∷ 1 ∷ [] }
{}

/// Without a checkerboard an edge may leave one circle one. So here the one way round the square
/// splits a circle and merges it again, which gives twice a label v-, and the other way gives 0:
/// modulo 3 the product is not 0.
pub fn virtual_codes_need_not_square_to_zero()
    ensures refused { first_fault changed_virtual_trefoil ≡ Some (Checkerboard 2) }
    ensures circles { map (circle_count changed_virtual_trefoil) (states changed_virtual_trefoil)
        ≡ 1 ∷ 1 ∷ 2 ∷ 1 ∷ [] }
    ensures product { product_entry 3 (block 3 changed_virtual_trefoil (pos 0)) (neg_ℤ (pos 1)) 0 0 ≡ 2 }
{}
