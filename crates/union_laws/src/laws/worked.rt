//! A worked union, and worked pieces.

ghost use Rattle.std.specs.Prelude.{◌≡◌, IsTrue, pos, neg_ℤ};
ghost use Rattle.kh_types.specs.Acceptance.{accepted};
ghost use Rattle.kh_types.specs.Table.{dimension};
ghost use Rattle.kh_types.specs.WorkedCodes.{curl, hopf_link, one_loop, two_curls};
ghost use Rattle.link_algebra.specs.Unions.{union_of};
ghost use Rattle.product_laws.specs.Products.{product_dimension};
ghost use Rattle.union_laws.specs.Loops.{with_loops};
ghost use Rattle.union_laws.specs.Pieces.{first_piece, other_pieces};
ghost use Rattle.union_laws.specs.WorkedPieces.{hopf_and_curl};

/// The Hopf link beside a loop, by the cube of the union and by the product: where i is -2 the Hopf
/// link has one dimension at each of j = -6 and j = -4, so that both add up at -5.
pub fn known_unions()
    ensures united { dimension 2 (union_of hopf_link one_loop) (neg_ℤ (pos 2)) (neg_ℤ (pos 5)) ≡ 2 }
    ensures product { product_dimension 2 9 (dimension 2 hopf_link) (dimension 2 one_loop)
        (neg_ℤ (pos 2)) (neg_ℤ (pos 5)) ≡ 2 }
{}

/// Of a Hopf link beside a curl, which is listed between its crossings, and two loops, the first
/// piece is the Hopf link, and the other is the curl, with the loops. Two curls that lie apart are
/// twice a curl.
pub fn known_pieces()
    ensures accepted { IsTrue (accepted hopf_and_curl) }
    ensures first { first_piece hopf_and_curl ≡ hopf_link }
    ensures others { other_pieces hopf_and_curl ≡ with_loops curl 2 }
    ensures first_curl { first_piece two_curls ≡ curl }
    ensures other_curl { other_pieces two_curls ≡ curl }
{}
