//! The faces and pieces of known diagrams.

ghost use Rattle.std.specs.Prelude.{◌≡◌, [], ◌∷◌, map};
ghost use Rattle.std.specs.List.{range_with_len};
ghost use Rattle.kh_types.specs.Faces.{face_count, piece_count};
ghost use Rattle.kh_types.specs.WorkedCodes.{one_loop, trefoil, two_curls};
ghost use Rattle.face_walk.specs.FaceNumbers.{face_length, left_face, right_face, piece_number};
ghost use Rattle.face_walk.specs.Numbered.{face_numbers};

/// The left-handed trefoil has five faces, two of which are triangles. One triangle lies at the
/// left of the arcs 1, 3 and 5, the other at the right of 2, 4 and 6.
pub fn faces_of_the_trefoil()
    ensures numbers { face_numbers trefoil.crossings
        ≡ 0 ∷ 1 ∷ 2 ∷ 3 ∷ 4 ∷ 1 ∷ 0 ∷ 3 ∷ 2 ∷ 1 ∷ 4 ∷ 3 ∷ [] }
    ensures lengths { map (face_length trefoil.crossings) (range_with_len 0 5)
        ≡ 2 ∷ 3 ∷ 2 ∷ 3 ∷ 2 ∷ [] }
    ensures left { map (left_face trefoil.crossings) (range_with_len 1 6)
        ≡ 3 ∷ 2 ∷ 3 ∷ 0 ∷ 3 ∷ 4 ∷ [] }
    ensures right { map (right_face trefoil.crossings) (range_with_len 1 6)
        ≡ 0 ∷ 1 ∷ 4 ∷ 1 ∷ 2 ∷ 1 ∷ [] }
    ensures pieces { map (piece_number trefoil.crossings) (range_with_len 1 3) ≡ 0 ∷ 0 ∷ 0 ∷ [] }
{}

/// Two curls that lie apart are two pieces of three faces each: inside the curl, round both loops
/// of the curve, and outside.
pub fn faces_of_two_curls()
    ensures faces { face_count two_curls.crossings ≡ 6 }
    ensures numbers { face_numbers two_curls.crossings
        ≡ 0 ∷ 1 ∷ 2 ∷ 1 ∷ 3 ∷ 4 ∷ 5 ∷ 4 ∷ [] }
    ensures lengths { map (face_length two_curls.crossings) (range_with_len 0 6)
        ≡ 1 ∷ 2 ∷ 1 ∷ 1 ∷ 2 ∷ 1 ∷ [] }
    ensures count { piece_count two_curls.crossings ≡ 2 }
    ensures pieces { map (piece_number two_curls.crossings) (range_with_len 1 2) ≡ 0 ∷ 1 ∷ [] }
{}

/// A loop has no faces, and is no piece.
pub fn loops_have_no_faces()
    ensures faces { face_count one_loop.crossings ≡ 0 }
    ensures pieces { piece_count one_loop.crossings ≡ 0 }
{}
