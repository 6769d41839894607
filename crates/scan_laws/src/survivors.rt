//! Scans of the deformed theory count survivors, and before their last stage dimensions. The laws
//! of one step hold for all numbers hd and hh of two dots and of two hollow dots that are together
//! 0 modulo p.

ghost use Rattle.std.specs.Prelude.{◌≡◌, ◌≢◌, ℕ, ◌+◌, ◌%◌, ◌<◌, ℤ, ◌-ℤ◌, ◌≤ℤ◌, List, length, IsTrue};
ghost use Rattle.std.specs.List.{Contains};
ghost use Rattle.kh_types.specs.Acceptance.{accepted};
ghost use Rattle.kh_types.specs.Code.{Code};
ghost use Rattle.kh_types.specs.Directions.{minus_count, plus_count};
ghost use Rattle.kh_types.specs.Residues.{HasInverses, Same};
ghost use Rattle.kh_types.specs.Table.{dimension, table};
ghost use Rattle.dotted_maps.specs.Maps.{coefficient_in};
ghost use Rattle.cell_laws.specs.Alike.{AreAlike};
ghost use Rattle.cell_laws.specs.Cells.{AreComplex, dimension_at};
ghost use Rattle.cell_laws.specs.Layers.{Layer, layer_of};
ghost use Rattle.cell_laws.specs.Filtered.{AreFiltered, lasting, survivors};
ghost use Rattle.cell_laws.specs.Shortest.{HaveGap, IsShortest};
ghost use Rattle.square_laws.specs.Deformed.{opposite};
ghost use Rattle.cell_laws.specs.DeformedCubes.{deformed_cube_of};
ghost use Rattle.order_laws.specs.Orders.{IsReordered};
ghost use Rattle.scan_laws.specs.Scans.{IsScanOf, Scan, first_scan};
ghost use Rattle.scan_laws.specs.Complexes.{complex_of};
ghost use Rattle.scan_laws.specs.Counts.{counted, counted_table, counted_with};
ghost use Rattle.scan_laws.specs.Eliminating.{IsEliminating, cancelled_pairs};
ghost use Rattle.scan_laws.specs.Steps.{IsLast, IsScanStep, Leads};
ghost use Rattle.scan_laws.specs.LevelSteps.{IsEndOfLevelScan, IsEndOfFilteredScan, IsLevelLast, IsLevelStep, IsLevelReached, IsFilteredReached, IsFilteredStep, level_of};
ghost use Rattle.scan_laws.specs.EndCounts.{counted_from};

/// Before the first crossing the complex of the scan is the deformed cube, cell by cell, where two
/// hollow dots count -h.
pub fn scans_begin_with_the_deformed_cube()
    ensures alike { (p h plus minus : ℕ) (code : Code)
        → AreAlike p (λ x. layer_of 0 x.state x.label) (λ x. 1) (deformed_cube_of p h code plus minus)
        (complex_of p h (opposite p h) code plus minus first_scan) }
    ensures cancels { (p h : ℕ) → 0 < p → Same p (h + opposite p h) 0 }
{}

/// An entry is a shortest one where it is between objects of one level in a filtered complex, or
/// where the levels differ by a gap that no coefficient falls short of.
pub fn level_entries_are_shortest()
    ensures level { (p hd hh : ℕ) (code : Code) (plus minus : ℕ) (scan next : Scan)
        → HasInverses p → Same p (hd + hh) 0 → IsTrue (accepted code) → IsScanOf code scan
        → AreFiltered p (complex_of p hd hh code plus minus scan)
        → (less : IsEliminating p hd hh code scan next)
        → level_of (scan.object less.head) ≡ level_of (scan.object less.tail)
        → (pair : Layer × Layer) → Contains (cancelled_pairs code scan less.tail less.head) pair
        → IsShortest (complex_of p hd hh code plus minus scan) pair }
    ensures gap { (p hd hh : ℕ) (code : Code) (plus minus : ℕ) (scan next : Scan) (gap : ℤ)
        → HasInverses p → Same p (hd + hh) 0 → IsTrue (accepted code) → IsScanOf code scan
        → HaveGap (complex_of p hd hh code plus minus scan) gap
        → (less : IsEliminating p hd hh code scan next)
        → level_of (scan.object less.head) -ℤ level_of (scan.object less.tail) ≡ gap
        → (pair : Layer × Layer) → Contains (cancelled_pairs code scan less.tail less.head) pair
        → IsShortest (complex_of p hd hh code plus minus scan) pair }
{}

/// Behind all crossings the gap of the levels is that of the complex: where no entry between
/// objects falls short of it, no coefficient does.
pub fn gaps_are_those_of_levels()
    ensures { (p hd hh : ℕ) (code : Code) (plus minus : ℕ) (scan : Scan) (gap : ℤ)
        → HasInverses p → Same p (hd + hh) 0 → IsTrue (accepted code) → IsScanOf code scan
        → AreFiltered p (complex_of p hd hh code plus minus scan)
        → scan.done ≡ length code.crossings
        → ((x y : ℕ) → Contains scan.numbers x → Contains scan.numbers y
        → coefficient_in (scan.terms x y) 0 % p ≢ 0
        → gap ≤ℤ (level_of (scan.object y) -ℤ level_of (scan.object x)))
        → HaveGap (complex_of p hd hh code plus minus scan) gap }
{}

/// The elimination of an entry of the least gap leaves no smaller one.
pub fn eliminations_keep_scan_gaps()
    ensures { (p hd hh : ℕ) (code : Code) (plus minus : ℕ) (scan next : Scan) (gap : ℤ)
        → HasInverses p → Same p (hd + hh) 0 → IsTrue (accepted code) → IsScanOf code scan
        → HaveGap (complex_of p hd hh code plus minus scan) gap
        → (less : IsEliminating p hd hh code scan next)
        → level_of (scan.object less.head) -ℤ level_of (scan.object less.tail) ≡ gap
        → HaveGap (complex_of p hd hh code plus minus next) gap }
{}

/// Where the complex keeps the quantum degree, as it does for h = 0, each step of a scan is such a
/// step, and one before the last stage.
pub fn plain_steps_are_level()
    ensures filtered { (p hd hh : ℕ) (code : Code) (plus minus : ℕ) (scan next : Scan)
        → HasInverses p → Same p (hd + hh) 0 → IsTrue (accepted code) → IsScanOf code scan
        → AreComplex p (complex_of p hd hh code plus minus scan)
        → IsScanStep p hd hh code scan next → IsFilteredStep p hd hh code plus minus scan next }
    ensures level { (p hd hh : ℕ) (code : Code) (plus minus : ℕ) (scan next : Scan)
        → HasInverses p → Same p (hd + hh) 0 → IsTrue (accepted code) → IsScanOf code scan
        → AreComplex p (complex_of p hd hh code plus minus scan)
        → IsScanStep p hd hh code scan next → IsLevelStep p hd hh code scan next }
{}

/// Each such step keeps that a scan is one of the code, that its complex is filtered, and how many
/// classes survive from any quantum degree on, at any homological degree. One before the last stage
/// keeps the dimensions that the coefficients between equal quantum degrees have.
pub fn steps_keep_survivors()
    ensures of { (p hd hh : ℕ) (code : Code) (plus minus : ℕ) (scan next : Scan)
        → HasInverses p → Same p (hd + hh) 0 → IsTrue (accepted code) → IsScanOf code scan
        → AreFiltered p (complex_of p hd hh code plus minus scan)
        → IsFilteredStep p hd hh code plus minus scan next → IsScanOf code next }
    ensures filtered { (p hd hh : ℕ) (code : Code) (plus minus : ℕ) (scan next : Scan)
        → HasInverses p → Same p (hd + hh) 0 → IsTrue (accepted code) → IsScanOf code scan
        → AreFiltered p (complex_of p hd hh code plus minus scan)
        → IsFilteredStep p hd hh code plus minus scan next
        → AreFiltered p (complex_of p hd hh code plus minus next) }
    ensures survivors { (p hd hh : ℕ) (code : Code) (plus minus : ℕ) (scan next : Scan)
        → HasInverses p → Same p (hd + hh) 0 → IsTrue (accepted code) → IsScanOf code scan
        → AreFiltered p (complex_of p hd hh code plus minus scan)
        → IsFilteredStep p hd hh code plus minus scan next → (i t : ℤ)
        → survivors p (complex_of p hd hh code plus minus next) i t
        ≡ survivors p (complex_of p hd hh code plus minus scan) i t }
    ensures dimensions { (p hd hh : ℕ) (code : Code) (plus minus : ℕ) (scan next : Scan)
        → HasInverses p → Same p (hd + hh) 0 → IsTrue (accepted code) → IsScanOf code scan
        → AreFiltered p (complex_of p hd hh code plus minus scan)
        → IsLevelStep p hd hh code scan next → (i j : ℤ)
        → dimension_at p (complex_of p hd hh code plus minus next) i j
        ≡ dimension_at p (complex_of p hd hh code plus minus scan) i j }
{}

/// The theorem: where such a scan of an accepted code ends, in whatever order it takes the
/// crossings, its objects count the survivors of the deformed cube, and what lasts up to each
/// quantum degree. And in every order there is an end.
pub fn scans_count_survivors()
    ensures survivors { (p h : ℕ) (code : Code) (crossings : List (List ℕ)) (scan : Scan)
        → HasInverses p → IsTrue (accepted code)
        → IsEndOfFilteredScan p h (opposite p h) code crossings scan → (i t : ℤ)
        → counted_from code.loops (plus_count code.crossings) (minus_count code.crossings) scan i t
        ≡ survivors p
        (deformed_cube_of p h code (plus_count code.crossings) (minus_count code.crossings)) i t }
    ensures lasting { (p h : ℕ) (code : Code) (crossings : List (List ℕ)) (scan : Scan)
        → HasInverses p → IsTrue (accepted code)
        → IsEndOfFilteredScan p h (opposite p h) code crossings scan → (i j : ℤ)
        → counted code scan i j
        ≡ lasting p
        (deformed_cube_of p h code (plus_count code.crossings) (minus_count code.crossings)) i j }
    ensures possible { (p h : ℕ) (code : Code) (crossings : List (List ℕ))
        → HasInverses p → IsTrue (accepted code) → IsReordered code.crossings crossings
        → (scan : Scan) × IsEndOfFilteredScan p h (opposite p h) code crossings scan }
{}

/// Before its last stage, which eliminates between objects of different levels, a scan counts the
/// dimensions of the code, whatever h is: where all crossings are done, each entry was eliminated
/// between objects of one level, and none is left there. And in every order there is such a scan.
pub fn level_scans_count_dimensions()
    ensures dimensions { (p h : ℕ) (code : Code) (crossings : List (List ℕ)) (scan : Scan)
        → HasInverses p → IsTrue (accepted code)
        → IsEndOfLevelScan p h (opposite p h) code crossings scan
        → (i j : ℤ) → counted code scan i j ≡ dimension p code i j }
    ensures table { (p h : ℕ) (code : Code) (crossings : List (List ℕ)) (scan : Scan)
        → HasInverses p → IsTrue (accepted code)
        → IsEndOfLevelScan p h (opposite p h) code crossings scan
        → counted_table p code scan ≡ table p code }
    ensures possible { (p h : ℕ) (code : Code) (crossings : List (List ℕ))
        → HasInverses p → IsTrue (accepted code) → IsReordered code.crossings crossings
        → (scan : Scan) × IsEndOfLevelScan p h (opposite p h) code crossings scan }
{}

/// What a program keeps that scans a code so: the first scan is reached, and each step leads from
/// one that is to another. One that is reached is a scan of the code, its complex is filtered and
/// has the survivors of the deformed cube; where it is a last one it counts them, and what lasts;
/// and from each there are steps to a last one.
pub fn filtered_reached_scans()
    ensures first { (p hd hh : ℕ) (code : Code) (plus minus : ℕ)
        → IsFilteredReached p hd hh code plus minus first_scan }
    ensures step { (p hd hh : ℕ) (code : Code) (plus minus : ℕ) (scan next : Scan)
        → IsFilteredReached p hd hh code plus minus scan
        → IsFilteredStep p hd hh code plus minus scan next
        → IsFilteredReached p hd hh code plus minus next }
    ensures of { (p h : ℕ) (code : Code) (plus minus : ℕ) (scan : Scan)
        → HasInverses p → IsTrue (accepted code)
        → IsFilteredReached p h (opposite p h) code plus minus scan → IsScanOf code scan }
    ensures filtered { (p h : ℕ) (code : Code) (plus minus : ℕ) (scan : Scan)
        → HasInverses p → IsTrue (accepted code)
        → IsFilteredReached p h (opposite p h) code plus minus scan
        → AreFiltered p (complex_of p h (opposite p h) code plus minus scan) }
    ensures kept { (p h : ℕ) (code : Code) (plus minus : ℕ) (scan : Scan)
        → HasInverses p → IsTrue (accepted code)
        → IsFilteredReached p h (opposite p h) code plus minus scan → (i t : ℤ)
        → survivors p (complex_of p h (opposite p h) code plus minus scan) i t
        ≡ survivors p (deformed_cube_of p h code plus minus) i t }
    ensures survivors { (p h : ℕ) (code : Code) (plus minus : ℕ) (scan : Scan)
        → HasInverses p → IsTrue (accepted code)
        → IsFilteredReached p h (opposite p h) code plus minus scan
        → IsLast p h (opposite p h) code scan → (i t : ℤ)
        → counted_from code.loops plus minus scan i t
        ≡ survivors p (deformed_cube_of p h code plus minus) i t }
    ensures lasting { (p h : ℕ) (code : Code) (plus minus : ℕ) (scan : Scan)
        → HasInverses p → IsTrue (accepted code)
        → IsFilteredReached p h (opposite p h) code plus minus scan
        → IsLast p h (opposite p h) code scan → (i j : ℤ)
        → counted_with code.loops plus minus scan i j
        ≡ lasting p (deformed_cube_of p h code plus minus) i j }
    ensures ends { (p h : ℕ) (code : Code) (plus minus : ℕ) (scan : Scan)
        → HasInverses p → IsTrue (accepted code)
        → IsFilteredReached p h (opposite p h) code plus minus scan
        → (last : Scan) × Leads (IsFilteredStep p h (opposite p h) code plus minus) scan last
        × IsLast p h (opposite p h) code last }
{}

/// And before the last stage: what is reached so is reached, with any numbers of positive and
/// negative crossings; where no entry between objects of one level is left it counts the code's
/// dimensions and its table; and from each there are steps to such a one.
pub fn level_reached_scans()
    ensures first { (p hd hh : ℕ) (code : Code) → IsLevelReached p hd hh code first_scan }
    ensures step { (p hd hh : ℕ) (code : Code) (scan next : Scan)
        → IsLevelReached p hd hh code scan → IsLevelStep p hd hh code scan next
        → IsLevelReached p hd hh code next }
    ensures level { (p hd hh : ℕ) (code : Code) (plus minus : ℕ) (scan : Scan)
        → IsLevelReached p hd hh code scan → IsFilteredReached p hd hh code plus minus scan }
    ensures dimensions { (p h : ℕ) (code : Code) (scan : Scan)
        → HasInverses p → IsTrue (accepted code)
        → IsLevelReached p h (opposite p h) code scan → IsLevelLast p code scan
        → (i j : ℤ) → counted code scan i j ≡ dimension p code i j }
    ensures table { (p h : ℕ) (code : Code) (scan : Scan)
        → HasInverses p → IsTrue (accepted code)
        → IsLevelReached p h (opposite p h) code scan → IsLevelLast p code scan
        → counted_table p code scan ≡ table p code }
    ensures ends { (p h : ℕ) (code : Code) (scan : Scan)
        → HasInverses p → IsTrue (accepted code) → IsLevelReached p h (opposite p h) code scan
        → (last : Scan) × Leads (IsLevelStep p h (opposite p h) code) scan last
        × IsLevelLast p code last }
{}
