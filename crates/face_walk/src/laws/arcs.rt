//! What one more arc does to faces and pieces, and how many faces a code can have.

ghost use Rattle.std.specs.Prelude.{◌≡◌, ◌≢◌, ◌≤◌, ◌<◌, ◌↔◌, ℕ, ◌+◌, ◌*◌, ◌/◌, List, IsTrue, None, length, slice_index};
ghost use Rattle.kh_types.specs.Acceptance.{accepted, genus_fault};
ghost use Rattle.kh_types.specs.Classes.{class_count};
ghost use Rattle.kh_types.specs.Code.{Code};
ghost use Rattle.kh_types.specs.Darts.{HasArcsTwice, IsPairing, partner_at};
ghost use Rattle.kh_types.specs.Faces.{face_count, open_faces, open_pieces, piece_count, planar_face_count};
ghost use Rattle.kh_types.specs.WorkedCodes.{trefoil, virtual_trefoil};
ghost use Rattle.face_walk.specs.AddedArcs.{bare, open_dart_count, open_face_count, open_piece_count, with_arc, HasArcMore, IsPart, IsPlanar, UnitesPieces, StaysInPiece};
ghost use Rattle.kh_types.specs.Permutations.{IsExchange, AreJoined, IsPermutation, cycles_of};

/// Where two images of a permutation are exchanged, its cycles are one fewer where the two numbers
/// were on two cycles, and one more where they were on one.
pub fn exchanges_change_cycles_by_one()
    ensures apart { (n : ℕ) (f back other : ℕ → ℕ) (x y : ℕ) → IsPermutation n f back
        → IsExchange n f other x y
        → slice_index (cycles_of n f) x ≢ slice_index (cycles_of n f) y
        → class_count (cycles_of n f) ≡ class_count (cycles_of n other) + 1 }
    ensures together { (n : ℕ) (f back other : ℕ → ℕ) (x y : ℕ) → IsPermutation n f back
        → IsExchange n f other x y
        → slice_index (cycles_of n f) x ≡ slice_index (cycles_of n f) y
        → class_count (cycles_of n other) ≡ class_count (cycles_of n f) + 1 }
{}

/// Bare crossings are n faces and n pieces, and have 4n open darts. Between two open darts an arc
/// can be added. It leaves two fewer open darts, and all are still partners in pairs, or alone.
/// Between two pieces it makes one piece of the two, and one face of two; inside a piece it leaves
/// the pieces, and makes one face of two, or two of one.
pub fn arcs_are_added()
    ensures bare_faces { (n : ℕ) → open_face_count n bare ≡ n }
    ensures bare_pieces { (n : ℕ) → open_piece_count n bare ≡ n }
    ensures bare_darts { (n : ℕ) → open_dart_count n bare ≡ 4 * n }
    ensures added { (m : ℕ) (partner : ℕ → ℕ) (dart other : ℕ) → dart < m → other < m → dart ≢ other
        → partner dart ≡ dart → partner other ≡ other
        → HasArcMore m partner (with_arc partner dart other) dart other }
    ensures pairing { (m : ℕ) (before after : ℕ → ℕ) (dart other : ℕ) → IsPairing m before
        → HasArcMore m before after dart other → IsPairing m after }
    ensures darts { (n : ℕ) (before after : ℕ → ℕ) (dart other : ℕ)
        → HasArcMore (4 * n) before after dart other
        → open_dart_count n before ≡ open_dart_count n after + 2 }
    ensures between { (n : ℕ) (before after : ℕ → ℕ) (dart other : ℕ) → IsPairing (4 * n) before
        → HasArcMore (4 * n) before after dart other
        → slice_index (open_pieces n before) (dart / 4)
        ≢ slice_index (open_pieces n before) (other / 4)
        → UnitesPieces n before after dart other }
    ensures inside { (n : ℕ) (before after : ℕ → ℕ) (dart other : ℕ) → IsPairing (4 * n) before
        → HasArcMore (4 * n) before after dart other
        → slice_index (open_pieces n before) (dart / 4)
        ≡ slice_index (open_pieces n before) (other / 4)
        → StaysInPiece n before after dart other }
{}

/// There are at most as many faces as on the sphere. What is planar is so with any part of its
/// arcs. So in whatever order its arcs are added, each that is added inside a piece joins two darts
/// of one face, and splits this face.
pub fn planar_arcs_split_faces()
    ensures bound { (n : ℕ) (partner : ℕ → ℕ) → IsPairing (4 * n) partner
        → 2 * open_face_count n partner + open_dart_count n partner
        ≤ 2 * n + 4 * open_piece_count n partner }
    ensures part { (n : ℕ) (part whole : ℕ → ℕ) → IsPairing (4 * n) part → IsPairing (4 * n) whole
        → IsPart (4 * n) part whole → IsPlanar n whole → IsPlanar n part }
    ensures together { (n : ℕ) (part whole : ℕ → ℕ) (dart : ℕ) → IsPairing (4 * n) part
        → IsPairing (4 * n) whole → IsPart (4 * n) part whole → IsPlanar n whole
        → dart < 4 * n → part dart ≢ whole dart
        → slice_index (open_pieces n part) (dart / 4)
        ≡ slice_index (open_pieces n part) (whole dart / 4)
        → slice_index (open_faces n part) dart ≡ slice_index (open_faces n part) (whole dart) }
    ensures split { (n : ℕ) (part after whole : ℕ → ℕ) (dart other : ℕ) → IsPairing (4 * n) part
        → IsPairing (4 * n) whole → IsPart (4 * n) part whole → IsPlanar n whole
        → HasArcMore (4 * n) part after dart other → whole dart ≡ other
        → slice_index (open_pieces n part) (dart / 4)
        ≡ slice_index (open_pieces n part) (other / 4)
        → AreJoined (open_faces n after) (open_faces n part) dart other }
{}

/// Where the slots of a code hold arcs, each of which stands twice, no dart is open, and there are
/// at most n + 2k faces for n crossings in k pieces: as many where the code's partner function is
/// planar, and fewer exactly where the code breaks the rule of faces.
pub fn codes_have_few_faces()
    ensures closed { (crossings : List (List ℕ)) → HasArcsTwice crossings
        → open_dart_count (length crossings) (partner_at crossings) ≡ 0 }
    ensures few { (crossings : List (List ℕ)) → HasArcsTwice crossings
        → face_count crossings ≤ planar_face_count crossings }
    ensures planar { (crossings : List (List ℕ)) → HasArcsTwice crossings
        → IsPlanar (length crossings) (partner_at crossings)
        ↔ (face_count crossings ≡ planar_face_count crossings) }
    ensures genus { (crossings : List (List ℕ)) → HasArcsTwice crossings
        → (genus_fault crossings ≢ None) ↔ (face_count crossings < planar_face_count crossings) }
{}

/// An accepted code is planar: it has n + 2k faces, and of the codes in which each arc stands twice
/// none of as many crossings in as many pieces has more.
pub fn accepted_codes_have_most_faces()
    ensures planar { (code : Code) → IsTrue (accepted code)
        → IsPlanar (length code.crossings) (partner_at code.crossings) }
    ensures exact { (code : Code) → IsTrue (accepted code)
        → face_count code.crossings ≡ planar_face_count code.crossings }
    ensures most { (code : Code) (others : List (List ℕ)) → IsTrue (accepted code)
        → HasArcsTwice others → length others ≡ length code.crossings
        → piece_count others ≡ piece_count code.crossings
        → face_count others ≤ face_count code.crossings }
{}

/// The trefoil has its five faces. At one crossing a first arc splits the face; one beside it
/// splits one more, and one across it makes one face of the two. In the virtual trefoil each arc
/// stands twice, and there are two faces, of four on the sphere.
pub fn worked_arcs()
    ensures trefoil { open_face_count 3 (partner_at trefoil.crossings) ≡ 5 }
    ensures first { open_face_count 1 (with_arc bare 0 1) ≡ 2 }
    ensures beside { open_face_count 1 (with_arc (with_arc bare 0 1) 2 3) ≡ 3 }
    ensures first_of_two { open_face_count 1 (with_arc bare 0 2) ≡ 2 }
    ensures across { open_face_count 1 (with_arc (with_arc bare 0 2) 1 3) ≡ 1 }
    ensures twice { HasArcsTwice virtual_trefoil.crossings }
    ensures faces { face_count virtual_trefoil.crossings ≡ 2 }
    ensures wanted { planar_face_count virtual_trefoil.crossings ≡ 4 }
{}
