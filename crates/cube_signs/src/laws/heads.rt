//! The labels behind an edge: they are the heads of the differential, by arithmetic on bits.

ghost use Rattle.std.specs.Prelude.{◌≡◌, ◌≢◌, ◌↔◌, ℕ, ◌+◌, ◌^◌, ◌<◌, [], ◌∷◌, map, All};
ghost use Rattle.std.specs.Prelude.{IsTrue, nat_eq, ◌&&◌, if◌then◌else◌};
ghost use Rattle.std.specs.List.{Contains, list_any, range_with_len};
ghost use Rattle.std.specs.List.Sorted.{IsStrictlyIncreasing};
ghost use Rattle.kh_types.specs.Acceptance.{accepted};
ghost use Rattle.kh_types.specs.Bits.{bit, ones};
ghost use Rattle.kh_types.specs.Circles.{circle_count};
ghost use Rattle.kh_types.specs.Code.{Code, IsCrossing, place_of};
ghost use Rattle.kh_types.specs.Differential.{changes_labels, coefficient, edge_sign, keeps_labels};
ghost use Rattle.kh_types.specs.Generators.{Generator, generator_of};
ghost use Rattle.circle_smoothing.specs.Edges.{IsEdge};
ghost use Rattle.kh_types.specs.Edges.{state_behind};
ghost use Rattle.circle_smoothing.specs.declared.change.Edge.{Edge};
ghost use Rattle.circle_smoothing.specs.declared.change.Edge.TheVariants.{Merge, Split};
ghost use Rattle.kh_types.specs.WorkedCodes.{figure_eight, trefoil};
ghost use Rattle.cube_signs.specs.Heads.{labels_behind, minuses_gained};

/// By the merge table or the split table an edge leads from a label to exactly those behind it that
/// are made by moving bits.
pub fn heads_of_an_edge()
    ensures { (code : Code) (state crossing : ℕ) (change : Edge) (label head_label : ℕ)
        → IsTrue (accepted code) → IsCrossing code.crossings crossing
        → bit state (place_of crossing) ≡ 0 → IsEdge code state crossing change
        → label < 2 ^ circle_count code state
        → head_label < 2 ^ circle_count code (state_behind state crossing)
        → IsTrue (keeps_labels code (generator_of state label)
        (generator_of (state_behind state crossing) head_label) crossing
        && changes_labels code (generator_of state label)
        (generator_of (state_behind state crossing) head_label) crossing)
        ↔ Contains (labels_behind change label) head_label }
{}

/// The labels behind an edge are labels of the circles behind it, each once, ascending.
pub fn labels_behind_fit()
    ensures below { (code : Code) (state crossing : ℕ) (change : Edge) (label : ℕ)
        → IsTrue (accepted code) → IsCrossing code.crossings crossing
        → bit state (place_of crossing) ≡ 0 → IsEdge code state crossing change
        → label < 2 ^ circle_count code state
        → All (λ behind. behind < 2 ^ circle_count code (state_behind state crossing))
        (labels_behind change label) }
    ensures ascending { (code : Code) (state crossing : ℕ) (change : Edge) (label : ℕ)
        → IsEdge code state crossing change → IsStrictlyIncreasing (labels_behind change label) }
{}

/// Behind a merge as many circles have v- as before it, and behind a split one more.
pub fn minuses_behind_an_edge()
    ensures { (code : Code) (state crossing : ℕ) (change : Edge) (label head_label : ℕ)
        → IsTrue (accepted code) → IsCrossing code.crossings crossing
        → bit state (place_of crossing) ≡ 0 → IsEdge code state crossing change
        → label < 2 ^ circle_count code state → Contains (labels_behind change label) head_label
        → ones (circle_count code (state_behind state crossing)) head_label
        ≡ ones (circle_count code state) label + minuses_gained change }
{}

/// A coefficient along an edge is the edge's sign for the labels behind it, and 0 for all others;
/// and a coefficient other than 0 goes along an edge.
pub fn coefficient_along_an_edge()
    ensures along { (p : ℕ) (code : Code) (state crossing : ℕ) (change : Edge)
        (label head_label : ℕ) → IsTrue (accepted code) → IsCrossing code.crossings crossing
        → bit state (place_of crossing) ≡ 0 → IsEdge code state crossing change
        → label < 2 ^ circle_count code state
        → head_label < 2 ^ circle_count code (state_behind state crossing)
        → coefficient p code (generator_of state label)
        (generator_of (state_behind state crossing) head_label)
        ≡ (if list_any (nat_eq head_label) (labels_behind change label)
        then edge_sign p state crossing else 0) }
    ensures elsewhere { (p : ℕ) (code : Code) (tail head : Generator)
        → coefficient p code tail head ≢ 0
        → (crossing : ℕ) × IsCrossing code.crossings crossing
        × (bit tail.state (place_of crossing) ≡ 0)
        × (head.state ≡ state_behind tail.state crossing) }
{}

/// The labels behind two edges, for each label before them. Of the three circles of the trefoil's
/// 0-smoothings the second crossing merges the circles 0 and 2, and the circle 1 stays; in a split
/// of the figure eight the new circle comes behind another, which keeps the number 1.
pub fn known_labels_behind()
    ensures merge { IsEdge trefoil 0 2 (Merge 0 2 0) }
    ensures merged { map (labels_behind (Merge 0 2 0)) (range_with_len 0 8)
        ≡ (0 ∷ []) ∷ (1 ∷ []) ∷ (2 ∷ []) ∷ (3 ∷ []) ∷ (1 ∷ []) ∷ [] ∷ (3 ∷ []) ∷ [] ∷ [] }
    ensures split { IsEdge figure_eight 11 3 (Split 0 0 2) }
    ensures parted { map (labels_behind (Split 0 0 2)) (range_with_len 0 4)
        ≡ (1 ∷ 4 ∷ []) ∷ (5 ∷ []) ∷ (3 ∷ 6 ∷ []) ∷ (7 ∷ []) ∷ [] }
{}
