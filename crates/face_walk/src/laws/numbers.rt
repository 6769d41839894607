//! What the numbers of faces and pieces mean.

ghost use Rattle.std.specs.Prelude.{◌≡◌, ◌<◌, ◌↔◌, ℕ, List, IsTrue, slice_index, length};
ghost use Rattle.std.specs.List.{range_with_len, sum_by};
ghost use Rattle.kh_types.specs.Code.{Code};
ghost use Rattle.kh_types.specs.Faces.{face_count, faces_of, pieces_of};
ghost use Rattle.kh_types.specs.Classes.{IsNamed};
ghost use Rattle.kh_types.specs.Darts.{dart_at, dart_count, face_step, partner_at};
ghost use Rattle.kh_types.specs.Acceptance.{accepted};
ghost use Rattle.face_walk.specs.ClassNumbers.{least_numbers, class_number};
ghost use Rattle.face_walk.specs.FaceNumbers.{face_number, face_length};

/// Where classes are named by their least numbers, the least number of a class stands in the list
/// of these at the number of the class. So two numbers are in one class exactly where their classes
/// have one number.
pub fn class_numbers_are_places()
    ensures place { (classes : List ℕ) (x : ℕ) → IsNamed (length classes) classes
        → x < length classes
        → slice_index (least_numbers classes) (class_number classes x) ≡ slice_index classes x }
    ensures same { (classes : List ℕ) (x y : ℕ) → IsNamed (length classes) classes
        → x < length classes → y < length classes
        → (class_number classes x ≡ class_number classes y)
        ↔ (slice_index classes x ≡ slice_index classes y) }
{}

/// In an accepted code the classes of darts that are its faces are named by their least darts, and
/// those of crossings that are its pieces by their least crossings. So two darts have one number
/// exactly where they are in one face, and two crossings where they are in one piece.
pub fn faces_and_pieces_are_named_by_their_least()
    ensures faces { (code : Code) → IsTrue (accepted code)
        → IsNamed (dart_count code.crossings) (faces_of code.crossings) }
    ensures pieces { (code : Code) → IsTrue (accepted code)
        → IsNamed (length code.crossings) (pieces_of code.crossings) }
{}

/// In an accepted code the dart that follows a dart in its face has the same face.
pub fn faces_are_closed()
    ensures { (code : Code) (place : ℕ) → IsTrue (accepted code) → place < dart_count code.crossings
        → face_number code.crossings (dart_at (face_step (partner_at code.crossings) place))
        ≡ face_number code.crossings (dart_at place) }
{}

/// In an accepted code the lengths of all faces come to the number of darts.
pub fn lengths_come_to_the_darts()
    ensures { (code : Code) → IsTrue (accepted code)
        → sum_by (face_length code.crossings) (range_with_len 0 (face_count code.crossings))
        ≡ dart_count code.crossings }
{}
