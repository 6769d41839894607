//! The code of a signed Gauss text is a directed code.

ghost use Rattle.std.specs.Prelude.{◌≡◌, ◌≢◌, ◌≤◌, ◌-◌, ◌*◌, ℕ, List, [], ◌∷◌, length};
ghost use Rattle.std.specs.Prelude.{nat_abs, ℤ, pos, negsuc, IsTrue, None, Some, Ok};
ghost use Rattle.std.specs.List.{All, count_by};
ghost use Rattle.std.specs.Ordering.{int_eq};
ghost use Rattle.kh_types.specs.Code.{Code, IsCrossing};
ghost use Rattle.kh_types.specs.Directions.{is_positive, sign_of, HasNoSingleArcs};
ghost use Rattle.kh_types.specs.Acceptance.{accepted, direction_fault, first_fault};
ghost use Rattle.kh_types.specs.Accepted.{IsDirected};
ghost use Rattle.kh_types.specs.declared.fault.CodeFault.TheVariants.{Checkerboard};
ghost use Rattle.gauss_code.specs.Listings.{Body, groups_of, labels_of, crossing_count};
ghost use Rattle.code_passes.specs.Labels.{listed_number, bad_label};
ghost use Rattle.gauss_code.specs.Faults.{signs_of};
ghost use Rattle.gauss_code.specs.Codes.{listed_code};
ghost use Rattle.gauss_code.specs.Reading.{IsGaussReading, ReadsAsGauss};

/// Where no label of a body is bad, each crossing has one over pass and one under pass: each number
/// of a crossing stands once among the labels, and so does its negative, and nothing else stands.
pub fn labels_stand_once()
    ensures even { (body : Body) → bad_label (labels_of body) ≡ None
        → length (labels_of body) ≡ 2 * crossing_count body }
    ensures once { (body : Body) (label : ℤ) → bad_label (labels_of body) ≡ None
        → 1 ≤ nat_abs label → nat_abs label ≤ crossing_count body
        → count_by (int_eq label) (labels_of body) ≡ 1 }
    ensures others { (body : Body) → bad_label (labels_of body) ≡ None
        → All (λ label. (1 ≤ nat_abs label) × (nat_abs label ≤ crossing_count body))
        (labels_of body) }
{}

/// The code of a text breaks none of the first six rules of acceptance: it is a directed code,
/// whatever its signs are.
pub fn gauss_codes_are_directed()
    ensures directed { (body : Body) (signs : List ℤ) → bad_label (labels_of body) ≡ None
        → IsDirected (listed_code body signs).crossings }
    ensures unbroken { (text : List ℕ) (code : Code) → IsGaussReading text (Ok code)
        → direction_fault code.crossings ≡ None }
{}

/// A directed code need not have a drawing: the labels 1, 2, -1 and -2 of two positive crossings
/// have one, and its arcs 1 and 2 allow no checkerboard.
pub fn directed_codes_without_drawing()
    ensures unbroken { direction_fault (listed_code
        (Body.Bare (pos 1 ∷ pos 2 ∷ negsuc 0 ∷ negsuc 1 ∷ []))
        (pos 1 ∷ pos 1 ∷ [])).crossings ≡ None }
    ensures refused { first_fault (listed_code
        (Body.Bare (pos 1 ∷ pos 2 ∷ negsuc 0 ∷ negsuc 1 ∷ []))
        (pos 1 ∷ pos 1 ∷ [])) ≡ Some (Checkerboard 2) }
{}

/// Where no component has a single arc, which is so where none has one label alone and in each
/// accepted code, each crossing has the sign that the text lists. A component with one label alone
/// does not tell the direction in which it passes over, and its crossing counts as negative.
pub fn gauss_codes_have_their_signs()
    ensures positive { (body : Body) (signs : List ℤ) → bad_label (labels_of body) ≡ None
        → HasNoSingleArcs (listed_code body signs).crossings → (crossing : ℕ)
        → IsCrossing (listed_code body signs).crossings crossing
        → is_positive (listed_code body signs).crossings crossing
        ≡ int_eq (listed_number signs (crossing - 1)) (pos 1) }
    ensures many { (body : Body) (signs : List ℤ) → bad_label (labels_of body) ≡ None
        → All (λ labels. length labels ≢ 1) (groups_of body)
        → HasNoSingleArcs (listed_code body signs).crossings }
    ensures signs { (text : List ℕ) (code : Code) (reads : ReadsAsGauss text code)
        → HasNoSingleArcs code.crossings → (crossing : ℕ) → IsCrossing code.crossings crossing
        → sign_of code.crossings crossing ≡ listed_number (signs_of reads.listing) (crossing - 1) }
    ensures accepted { (text : List ℕ) (code : Code) (reads : ReadsAsGauss text code)
        → IsTrue (accepted code) → (crossing : ℕ) → IsCrossing code.crossings crossing
        → sign_of code.crossings crossing ≡ listed_number (signs_of reads.listing) (crossing - 1) }
    ensures alone { sign_of (listed_code
        (Body.Groups (pos 1 ∷ []) ((negsuc 0 ∷ []) ∷ []))
        (pos 1 ∷ [])).crossings 1 ≡ negsuc 0 }
{}
