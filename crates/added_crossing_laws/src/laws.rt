//! One crossing more: what becomes of pairings and circles, and how the number of a surface is a
//! sum over the dots on the discs of the new pairings. Numbers have two parameters, h and minus, which
//! are together 0 modulo p.

ghost use Rattle.std.specs.Prelude.{◌≡◌, ◌↔◌, ℕ, ◌+◌, ◌*◌, ◌^◌, ◌<◌, ◌≤◌, List, ◌++◌, length, Bool, IsTrue};
ghost use Rattle.std.specs.List.{sum_by, Contains};
ghost use Rattle.kh_types.specs.Acceptance.{accepted};
ghost use Rattle.kh_types.specs.Bits.{bit};
ghost use Rattle.kh_types.specs.Circles.{circles_of, circle_of};
ghost use Rattle.kh_types.specs.Classes.{Respects};
ghost use Rattle.kh_types.specs.Code.{Code};
ghost use Rattle.kh_types.specs.Darts.{HasArcsTwice};
ghost use Rattle.kh_types.specs.Residues.{Same};
ghost use Rattle.surface_laws.specs.Surfaces.{IsClosed, value};
ghost use Rattle.surface_laws.specs.Points.{AreAmong, least_points};
ghost use Rattle.genus_laws.specs.CutCodes.{outer_smoothings};
ghost use Rattle.added_crossing_laws.specs.Pairings.{IsPairingOf, marked_by};
ghost use Rattle.added_crossing_laws.specs.Steps.{those, IsNewPairing};
ghost use Rattle.added_crossing_laws.specs.Codes.{points_at, step_at, smoothing_at, pairing_behind, circles_behind, circle_behind, closed_at, circles_before, circle_before, sheet_at, outside_at, added_at, saddle_sheet, saddle_added, AreLabelled, IsLabelled, discs_behind, AreClosed, sum_over_dots};
ghost use Rattle.added_crossing_laws.specs.Saddles.{edge_at, edge_with, MergesOrSplitsAt, IsPairedAt, AreBits, opposite, pairing_of, circle_with};
ghost use Rattle.kh_types.specs.Products.{sum_below};
ghost use Rattle.added_crossing_laws.specs.Entries.{entry_sheet, entry_at, added_surface, saddle_surface, label_before, closed_label, label_behind, ArePairedAt, AreEntriesClosed};
ghost use Rattle.surface_laws.specs.Sheets.{marked, marked_else};
ghost use Rattle.added_crossing_laws.specs.Labels.{label_at, number_of};

/// Adding a crossing: the surface between two pairings at a state is the sum, over the dots on the
/// discs of the new pairings, of what the crossing adds, with hollow dots where the dots are not,
/// times the surface outside, where they are, modulo p.
pub fn crossings_add_up()
    ensures { (p h minus : ℕ) (code : Code) (k state : ℕ) (m n : List (ℕ × ℕ)) (dots label other_label : ℕ → ℕ)
        → Same p (h + minus) 0 → AreLabelled code k state m n label other_label
        → AreClosed
        (outside_at code k state (pairing_behind code k (bit state k) m) (pairing_behind code k (bit state k) n) label other_label)
        (added_at code k (bit state k) m n dots label other_label) (discs_behind code k (bit state k) (bit state k) m n)
        → Same p
        (sum_over_dots h minus
        (outside_at code k state (pairing_behind code k (bit state k) m) (pairing_behind code k (bit state k) n) label other_label)
        (added_at code k (bit state k) m n dots label other_label) (discs_behind code k (bit state k) (bit state k) m n))
        (value h minus (sheet_at code k state m n dots label other_label)) }
{}

/// The saddle at the crossing, from its 0-smoothing to its 1-smoothing: its surface is the sum,
/// over the dots on the discs of the new pairings, of what it adds times the surface outside, modulo
/// p.
pub fn saddles_add_up()
    ensures { (p h minus : ℕ) (code : Code) (k state : ℕ) (m : List (ℕ × ℕ)) (label other_label : ℕ → ℕ)
        → Same p (h + minus) 0 → IsLabelled code k state m label other_label
        → AreClosed (outside_at code k state (pairing_behind code k 0 m) (pairing_behind code k 1 m) label other_label)
        (saddle_added code k m label other_label) (discs_behind code k 0 1 m m)
        → Same p
        (sum_over_dots h minus (outside_at code k state (pairing_behind code k 0 m) (pairing_behind code k 1 m) label other_label)
        (saddle_added code k m label other_label) (discs_behind code k 0 1 m m))
        (value h minus (saddle_sheet code k state m label other_label)) }
{}

/// Where two circles become one, or one becomes two, the number of the saddle's surface is the
/// coefficient of the cube's edge at the crossing, without its sign; so that is the sum over the
/// dots, modulo p. Where h and minus are 0 the coefficient is that of the merge and split tables.
pub fn saddles_are_edges()
    ensures number { (h minus : ℕ) (code : Code) (k state : ℕ) (m : List (ℕ × ℕ)) (label other_label : ℕ → ℕ)
        → IsPairedAt code k m → AreBits label other_label → MergesOrSplitsAt code k state m
        → value h minus (saddle_sheet code k state m label (opposite other_label))
        ≡ edge_with h minus code k state m label other_label }
    ensures plain { (code : Code) (k state : ℕ) (m : List (ℕ × ℕ)) (label other_label : ℕ → ℕ)
        → edge_with 0 0 code k state m label other_label ≡ edge_at code k state m label other_label }
    ensures sum { (p h minus : ℕ) (code : Code) (k state : ℕ) (m : List (ℕ × ℕ)) (label other_label : ℕ → ℕ)
        → Same p (h + minus) 0 → IsPairedAt code k m
        → AreBits label other_label → MergesOrSplitsAt code k state m
        → IsLabelled code k state m label (opposite other_label)
        → AreClosed
        (outside_at code k state (pairing_behind code k 0 m) (pairing_behind code k 1 m) label (opposite other_label))
        (saddle_added code k m label (opposite other_label)) (discs_behind code k 0 1 m m)
        → Same p
        (sum_over_dots h minus
        (outside_at code k state (pairing_behind code k 0 m) (pairing_behind code k 1 m) label (opposite other_label))
        (saddle_added code k m label (opposite other_label)) (discs_behind code k 0 1 m m))
        (edge_with h minus code k state m label other_label) }
{}

/// After one crossing more a pairing of the open arcs has become one of those that are open then:
/// each of them is an end of exactly one pair.
pub fn pairings_stay_pairings()
    ensures paired { (code : Code) (k smoothing : ℕ) (m : List (ℕ × ℕ)) → HasArcsTwice code.crossings → k < length code.crossings
        → IsPairingOf (points_at code k).opened m → IsPairingOf (points_at code (k + 1)).opened (pairing_behind code k smoothing m) }
    ensures joins { (code : Code) (k smoothing : ℕ) (m : List (ℕ × ℕ)) → HasArcsTwice code.crossings → k < length code.crossings
        → AreAmong (points_at code k).opened m
        → IsNewPairing (step_at code k) (m ++ smoothing_at code k smoothing) (pairing_behind code k smoothing m) }
{}

/// The circles of a pairing at a state are those of the new pairing and the closed ones: they are
/// as many, and sums over them are the same. Arcs that stay alive are together where they were.
pub fn circles_stay_circles()
    ensures count { (code : Code) (k smoothing state : ℕ) (m : List (ℕ × ℕ)) → HasArcsTwice code.crossings
        → k < length code.crossings → AreAmong (points_at code k).opened m
        → length (circles_behind code k smoothing state m) + length (closed_at code k smoothing m)
        ≡ length (circles_before code k smoothing state m) }
    ensures together { (code : Code) (k smoothing state : ℕ) (m : List (ℕ × ℕ)) (x y : ℕ) → HasArcsTwice code.crossings
        → k < length code.crossings → AreAmong (points_at code k).opened m → Contains (points_at code (k + 1)).alive x
        → Contains (points_at code (k + 1)).alive y
        → (circle_behind code k smoothing state m x ≡ circle_behind code k smoothing state m y)
        ↔ (circle_before code k smoothing state m x ≡ circle_before code k smoothing state m y) }
    ensures sum { (code : Code) (k smoothing state : ℕ) (m : List (ℕ × ℕ)) (f : ℕ → ℕ) → HasArcsTwice code.crossings
        → k < length code.crossings → AreAmong (points_at code k).opened m
        → Respects f ((m ++ smoothing_at code k smoothing) ++ outer_smoothings code.crossings state (k + 1))
        → sum_by f (circles_behind code k smoothing state m) + sum_by f (closed_at code k smoothing m)
        ≡ sum_by f (circles_before code k smoothing state m) }
{}

/// A state makes a pairing of the open arcs, whose circles are those of the whole state.
pub fn states_make_pairings()
    ensures paired { (code : Code) (state k : ℕ) → HasArcsTwice code.crossings → k ≤ length code.crossings
        → IsPairingOf (points_at code k).opened (pairing_of code state k) }
    ensures circles { (code : Code) (state k x y : ℕ) → HasArcsTwice code.crossings → k ≤ length code.crossings
        → Contains (points_at code k).alive x → Contains (points_at code k).alive y
        → (circle_with code state (pairing_of code state k) k x ≡ circle_with code state (pairing_of code state k) k y)
        ↔ (circle_of (circles_of code state) x ≡ circle_of (circles_of code state) y) }
{}

/// Labels as numbers and as functions of arcs are the same: a number's bits are the values of a
/// function that has one value on each circle, and the values of a function are the bits of a
/// number.
pub fn labels_are_functions()
    ensures marked { (count number : ℕ) (test : ℕ → Bool) (joins : List (ℕ × ℕ))
        → marked number (least_points (count + 1) (those count test) joins)
        ≡ marked_by (label_at (count + 1) (those count test) joins number) (least_points (count + 1) (those count test) joins) }
    ensures marked_else { (count number : ℕ) (test : ℕ → Bool) (joins : List (ℕ × ℕ))
        → marked_else number (least_points (count + 1) (those count test) joins)
        ≡ marked_by (opposite (label_at (count + 1) (those count test) joins number))
        (least_points (count + 1) (those count test) joins) }
    ensures respects { (count number : ℕ) (test : ℕ → Bool) (joins : List (ℕ × ℕ)) → AreAmong (those count test) joins
        → Respects (label_at (count + 1) (those count test) joins number) joins }
    ensures number { (label : ℕ → ℕ) (circles : List ℕ) → ((x : ℕ) → label x < 2)
        → marked (number_of label circles) circles ≡ marked_by label circles }
    ensures below { (label : ℕ → ℕ) (circles : List ℕ) → ((x : ℕ) → label x < 2)
        → number_of label circles < 2 ^ length circles }
{}

/// An entry after the first k crossings, and the coefficient of an edge at the next one, are sums
/// over the dot sets on the new discs: of what the crossing adds, with the labels of the closed
/// circles, times the dot set's entry after one crossing more, with the other labels; modulo p.
pub fn entries_add_up()
    ensures terms { (p h minus : ℕ) (code : Code) (k state : ℕ) (m n : List (ℕ × ℕ)) (dots label other : ℕ)
        → Same p (h + minus) 0 → ArePairedAt code k m n
        → AreEntriesClosed
        (entry_sheet code (k + 1) state (pairing_behind code k (bit state k) m) (pairing_behind code k (bit state k) n) 0
        (label_behind code k (bit state k) state m label) (label_behind code k (bit state k) state n other))
        (added_surface code k (bit state k) m n dots (closed_label code k (bit state k) state m label)
        (closed_label code k (bit state k) state n other) 0)
        → Same p (entry_at h minus code k state m n dots label other)
        (sum_below (2 ^ length (discs_behind code k (bit state k) (bit state k) m n))
        (λ kept.
        value h minus (added_surface code k (bit state k) m n dots (closed_label code k (bit state k) state m label)
        (closed_label code k (bit state k) state n other) kept)
        * entry_at h minus code (k + 1) state (pairing_behind code k (bit state k) m) (pairing_behind code k (bit state k) n) kept
        (label_behind code k (bit state k) state m label) (label_behind code k (bit state k) state n other))) }
    ensures saddles { (p h minus : ℕ) (code : Code) (k state : ℕ) (m : List (ℕ × ℕ)) (label other : ℕ) → Same p (h + minus) 0
        → IsPairedAt code k m
        → MergesOrSplitsAt code k state m
        → AreEntriesClosed
        (entry_sheet code (k + 1) state (pairing_behind code k 0 m) (pairing_behind code k 1 m) 0
        (label_behind code k 0 state m label) (label_behind code k 1 state m other))
        (saddle_surface code k m (closed_label code k 0 state m label) (closed_label code k 1 state m other) 0)
        → Same p (edge_with h minus code k state m (label_before code k 0 state m label) (label_before code k 1 state m other))
        (sum_below (2 ^ length (discs_behind code k 0 1 m m))
        (λ kept.
        value h minus (saddle_surface code k m (closed_label code k 0 state m label) (closed_label code k 1 state m other) kept)
        * entry_at h minus code (k + 1) state (pairing_behind code k 0 m) (pairing_behind code k 1 m) kept
        (label_behind code k 0 state m label) (label_behind code k 1 state m other))) }
{}

/// The labels of the circles before a crossing are split into those of the closed circles and those
/// of the circles after it: both are labels of as many circles.
pub fn labels_split()
    ensures { (code : Code) (k smoothing state number : ℕ) (m : List (ℕ × ℕ))
        → (closed_label code k smoothing state m number < 2 ^ length (closed_at code k smoothing m))
        × (label_behind code k smoothing state m number < 2 ^ length (circles_behind code k smoothing state m)) }
{}
