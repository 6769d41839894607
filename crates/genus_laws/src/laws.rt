//! Every closed surface has a genus.

ghost use Rattle.std.specs.Prelude.{◌≡◌, ℕ, ◌+◌, ◌*◌, ◌<◌, ◌≤◌, List, [], ◌++◌, length, Bool, true, false, ◌&&◌, IsTrue, slice_index, slice_index_or};
ghost use Rattle.kh_types.specs.Acceptance.{accepted};
ghost use Rattle.kh_types.specs.Bits.{one_if};
ghost use Rattle.kh_types.specs.Code.{Code, arc_count, arc_in};
ghost use Rattle.kh_types.specs.Classes.{classes_of, is_least, AreBelow};
ghost use Rattle.kh_types.specs.Circles.{smoothing_of};
ghost use Rattle.kh_types.specs.Colours.{IsColoured};
ghost use Rattle.kh_types.specs.Permutations.{IsPermutation, IsExchange, cycles_of};
ghost use Rattle.genus_laws.specs.Orbits.{orbits_of, parts_in, cycles_in, size_in, count_in, is_in, HaveWholeGenus};
ghost use Rattle.genus_laws.specs.Surfaces.{IsSurface, Lead, other_than, surface_components, faces_in, strips_in, ends_or_starts};
ghost use Rattle.genus_laws.specs.Pairings.{JoinOpen, JoinOpenAlone, is_closed_circle};
ghost use Rattle.genus_laws.specs.Saddles.{saddle_components, side_faces};
ghost use Rattle.genus_laws.specs.CutCodes.{ends_there, starts_there, outer_smoothings};

/// Two permutations, on each orbit of both: the cycles of the one, of the other, and of the one
/// after which the other leads back, are the size of the orbit and 2, less an even number.
pub fn orbits_have_a_genus()
    ensures { (n : ℕ) (f f_back g g_back : ℕ → ℕ) → IsPermutation n f f_back → IsPermutation n g g_back
        → (name : ℕ) → name < n → slice_index (orbits_of n f g) name ≡ name
        → HaveWholeGenus (cycles_in n f f_back g name) (size_in n (orbits_of n f g) name) }
{}

/// Two pairings of open points and what is joined outside: each component has a genus, and its open
/// points are twice its strips.
pub fn surfaces_have_a_genus()
    ensures genus { (n : ℕ) (ends starts : ℕ → Bool) (m k w : List (ℕ × ℕ)) → IsSurface n ends starts m k w
        → (name : ℕ) → name < n → slice_index (surface_components n m k w) name ≡ name
        → HaveWholeGenus (faces_in n ends starts m k w name) (strips_in n ends m k w name) }
    ensures strips { (n : ℕ) (ends starts : ℕ → Bool) (m k w : List (ℕ × ℕ)) → IsSurface n ends starts m k w
        → (name : ℕ) → count_in n (surface_components n m k w) name (ends_or_starts ends starts) ≡ 2 * strips_in n ends m k w name }
{}

/// An accepted code, cut after k crossings: the arcs have two colours, so that what the crossings
/// still to come join in any state leads from arcs that do not end inside alone to arcs that do
/// not start inside alone, and no arc is open at both.
pub fn codes_lead_outside()
    ensures leads { (code : Code) (choice k state : ℕ) → IsTrue (accepted code) → IsColoured code.crossings choice
        → k ≤ length code.crossings
        → Lead (arc_count code.crossings + code.loops + 1) (other_than (ends_there code.crossings choice k))
        (other_than (starts_there code.crossings choice k)) (outer_smoothings code.crossings state k) }
    ensures apart { (crossings : List (List ℕ)) (choice k x : ℕ) → ends_there crossings choice k x ≡ true
        → starts_there crossings choice k x ≡ false }
{}

/// With one crossing more: where a pairing leads from the open ends to the open starts, the pairs
/// that join the new open arcs as it and a smoothing of that crossing do lead from the new open
/// ends to the new open starts.
pub fn new_pairings_lead()
    ensures { (code : Code) (choice k smoothing : ℕ) (m pairs : List (ℕ × ℕ)) → IsColoured code.crossings choice
        → k < length code.crossings
        → Lead (arc_count code.crossings + code.loops + 1) (ends_there code.crossings choice k)
        (starts_there code.crossings choice k) m
        → JoinOpen (arc_count code.crossings + code.loops + 1)
        (ends_or_starts (ends_there code.crossings choice (k + 1)) (starts_there code.crossings choice (k + 1)))
        (classes_of (arc_count code.crossings + code.loops + 1)
        (m ++ smoothing_of smoothing (slice_index_or code.crossings k []))) pairs
        → Lead (arc_count code.crossings + code.loops + 1) (ends_there code.crossings choice (k + 1))
        (starts_there code.crossings choice (k + 1)) pairs }
{}

/// Three pairings of open points make a surface: what a composition of two terms is glued of.
pub fn compositions_are_surfaces()
    ensures { (n : ℕ) (ends starts : ℕ → Bool) (m k l : List (ℕ × ℕ))
        → ((x : ℕ) → x < n → ends x ≡ true → starts x ≡ false)
        → Lead n ends starts m → Lead n ends starts k → Lead n ends starts l → IsSurface n ends starts m k l }
{}

/// Two pairings of what is open after k crossings, with the crossings still to come in any state: a
/// surface.
pub fn cut_codes_are_surfaces()
    ensures { (code : Code) (choice k state : ℕ) (m l : List (ℕ × ℕ)) → IsTrue (accepted code)
        → IsColoured code.crossings choice → k ≤ length code.crossings
        → Lead (arc_count code.crossings + code.loops + 1) (ends_there code.crossings choice k)
        (starts_there code.crossings choice k) m
        → Lead (arc_count code.crossings + code.loops + 1) (ends_there code.crossings choice k)
        (starts_there code.crossings choice k) l
        → IsSurface (arc_count code.crossings + code.loops + 1) (ends_there code.crossings choice k)
        (starts_there code.crossings choice k) m l (outer_smoothings code.crossings state k) }
{}

/// Two pairings of what is open after k crossings, with the next crossing smoothed and a pairing of
/// what is open after that: a surface, of which a term's new coefficient is counted.
pub fn added_crossings_are_surfaces()
    ensures { (code : Code) (choice k smoothing : ℕ) (m l pairs : List (ℕ × ℕ)) → IsColoured code.crossings choice
        → k < length code.crossings
        → Lead (arc_count code.crossings + code.loops + 1) (ends_there code.crossings choice k)
        (starts_there code.crossings choice k) m
        → Lead (arc_count code.crossings + code.loops + 1) (ends_there code.crossings choice k)
        (starts_there code.crossings choice k) l
        → Lead (arc_count code.crossings + code.loops + 1) (ends_there code.crossings choice (k + 1))
        (starts_there code.crossings choice (k + 1)) pairs
        → IsSurface (arc_count code.crossings + code.loops + 1) (ends_there code.crossings choice k)
        (starts_there code.crossings choice k) m l
        (smoothing_of smoothing (slice_index_or code.crossings k []) ++ pairs) }
{}

/// Two parts that meet in open points, in each class of whatever is coarser: the circles of both
/// are the closed circles of the first, and the circles of open points, which the first joins as
/// some pairs do.
pub fn circles_are_glued()
    ensures { (n : ℕ) (opened : ℕ → Bool) (xs ys m : List (ℕ × ℕ)) (all : List ℕ) (name : ℕ)
        → AreBelow n xs → AreBelow n ys → JoinOpenAlone n opened ys → JoinOpen n opened (classes_of n xs) m
        → ((x : ℕ) → x < n
        → slice_index all (slice_index (classes_of n (xs ++ ys)) x) ≡ slice_index all x)
        → parts_in n all name (classes_of n (xs ++ ys))
        ≡ count_in n all name (is_closed_circle n opened (classes_of n xs))
        + count_in n all name (λ x. opened x && is_least (classes_of n (m ++ ys)) x) }
{}

/// Before the first crossing no arc is open, and no pairs are its pairing; after the last crossing
/// no arc is open either. (Nothing stands on this law: it shows what `ends_there` and
/// `starts_there` say where a cut is before or after all crossings.)
pub fn nothing_is_open_at_either_end()
    ensures first { (crossings : List (List ℕ)) (choice n : ℕ)
        → Lead n (ends_there crossings choice 0) (starts_there crossings choice 0) [] }
    ensures ends { (crossings : List (List ℕ)) (choice x : ℕ) → IsColoured crossings choice
        → ends_there crossings choice (length crossings) x ≡ false }
    ensures starts { (crossings : List (List ℕ)) (choice x : ℕ) → IsColoured crossings choice
        → starts_there crossings choice (length crossings) x ≡ false }
{}

/// Two permutations that differ by an exchange of two images, on each orbit of both: three cycles
/// together where the two numbers are, and two elsewhere.
pub fn exchanges_merge_or_split()
    ensures { (n : ℕ) (f back other other_back : ℕ → ℕ) (x y : ℕ) → IsPermutation n f back
        → IsPermutation n other other_back → IsExchange n f other x y
        → (name : ℕ) → name < n → slice_index (orbits_of n f other) name ≡ name
        → parts_in n (orbits_of n f other) name (cycles_of n f)
        + parts_in n (orbits_of n f other) name (cycles_of n other)
        ≡ 2 + one_if (is_in (orbits_of n f other) name x) }
{}

/// The saddle at a crossing, on each of its components: the closed circles of both smoothings, the
/// discs of the two new pairings, and those of the second with itself are three where the crossing
/// is, and two elsewhere. So its genus is 0.
pub fn saddles_have_no_genus()
    ensures { (code : Code) (choice k : ℕ) (m m0 m1 : List (ℕ × ℕ)) → IsColoured code.crossings choice
        → k < length code.crossings
        → let n = arc_count code.crossings + code.loops + 1 in
        let ends = ends_there code.crossings choice (k + 1) in
        let starts = starts_there code.crossings choice (k + 1) in
        let slots = slice_index_or code.crossings k [] in
        let s = smoothing_of 0 slots in
        let t = smoothing_of 1 slots in
        let all = saddle_components n m s t in
        Lead n (ends_there code.crossings choice k) (starts_there code.crossings choice k) m
        → JoinOpen n (ends_or_starts ends starts) (classes_of n (m ++ s)) m0
        → JoinOpen n (ends_or_starts ends starts) (classes_of n (m ++ t)) m1
        → (name : ℕ) → name < n → slice_index all name ≡ name
        → side_faces n ends starts all (classes_of n (m ++ s)) m0 m1 name
        + side_faces n ends starts all (classes_of n (m ++ t)) m1 m1 name
        ≡ 2 + one_if (is_in all name (arc_in slots 0)) }
{}
