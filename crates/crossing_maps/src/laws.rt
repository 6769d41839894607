//! The pairing after a crossing, its closed circles and the surface that it adds, in classes of all
//! arcs that a program can number.

ghost use Rattle.std.specs.Prelude.{◌≡◌, ℕ, ◌+◌, ◌≤◌, List, [], ◌++◌, length, slice_index_or};
ghost use Rattle.kh_types.specs.Classes.{classes_of};
ghost use Rattle.kh_types.specs.Code.{Code};
ghost use Rattle.surface_laws.specs.Points.{AreAmong};
ghost use Rattle.added_crossing_laws.specs.Pairings.{IsPairingOf};
ghost use Rattle.added_crossing_laws.specs.Steps.{near, pairs_among};
ghost use Rattle.added_crossing_laws.specs.Codes.{closed_at, pairing_behind, points_at, smoothing_at, step_at};
ghost use Rattle.tangle_maps.specs.declared.pairing.TheConstants.{POINTS};
ghost use Rattle.tangle_maps.specs.Pairings.{ArePartners, joins_of, paired_arcs};
ghost use Rattle.crossing_maps.specs.ListedPlaces.{IsArcs};
ghost use Rattle.crossing_maps.specs.Partners.{HasArcsBelow};
ghost use Rattle.crossing_maps.specs.Sides.{CanAdd, IsSideAt, IsSiteAt};
ghost use Rattle.crossing_maps.specs.Sites.{IsPlace, closed_in};
ghost use Rattle.crossing_maps.specs.declared.between.Side.{Side};
ghost use Rattle.crossing_maps.specs.declared.splitting.Site.{Site};

/// What classes of all arcs that a program can number make of a pairing and a smoothing is the
/// pairing after the crossing, and its closed circles.
pub fn all_arcs_serve()
    ensures pairs { (code : Code) (k smoothing : ℕ) (m : List (ℕ × ℕ)) → IsPlace code k
        → AreAmong (points_at code k).opened m → pairs_among (points_at code (k + 1)).opened
        (classes_of POINTS (m ++ smoothing_at code k smoothing))
        ≡ pairing_behind code k smoothing m }
    ensures closed { (code : Code) (k smoothing : ℕ) (m : List (ℕ × ℕ)) → IsPlace code k
        → AreAmong (points_at code k).opened m → closed_in (points_at code (k + 1)).opened
        (near (step_at code k)) (classes_of POINTS (m ++ smoothing_at code k smoothing))
        ≡ closed_at code k smoothing m }
{}

/// Arcs at a crossing, open before or after it, near it, or named for a circle that it closes, are
/// few enough for a program.
pub fn places_have_arcs()
    ensures slots { (code : Code) (k : ℕ) → IsPlace code k
        → HasArcsBelow POINTS (slice_index_or code.crossings k []) }
    ensures opened { (code : Code) (k j : ℕ) → IsPlace code k
        → IsArcs POINTS (points_at code j).opened }
    ensures near { (code : Code) (k : ℕ) → IsPlace code k
        → IsArcs POINTS (near (step_at code k)) }
    ensures closed { (code : Code) (k smoothing : ℕ) (m : List (ℕ × ℕ)) → IsPlace code k
        → IsArcs POINTS (closed_at code k smoothing m) }
{}

/// At a place of a code a crossing can be added between what smoothings of it make of two pairings.
pub fn crossings_can_be_added()
    ensures { (code : Code) (k : ℕ) (site : Site) (from to : Side) → IsPlace code k
        → IsSiteAt code k site → IsSideAt code k site from → IsSideAt code k site to
        → CanAdd site from to }
{}

/// A crossing closes at most two circles.
pub fn crossings_close_few_circles()
    ensures { (code : Code) (k smoothing : ℕ) (m : List (ℕ × ℕ)) → IsPlace code k
        → AreAmong (points_at code k).opened m → length (closed_at code k smoothing m) ≤ 2 }
{}

/// Partners are a pairing of the arcs that have another arc for a partner.
pub fn partners_are_paired()
    ensures { (partners opened : List ℕ) → opened ≡ paired_arcs partners → ArePartners partners
        → IsPairingOf opened (joins_of partners opened) }
{}
