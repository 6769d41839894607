//! What partners, sums and sizes are for the definitions of maps.

ghost use Rattle.std.specs.Prelude.{◌≡◌, ℕ, ◌+◌, ◌*◌, ◌%◌, ◌^◌, ◌<◌, ◌≤◌, List, [], ◌∷◌, ◌++◌, length, slice_index, Some};
ghost use Rattle.kh_types.specs.Products.{product_at};
ghost use Rattle.kh_types.specs.Residues.{Same};
ghost use Rattle.dotted_maps.specs.Choices.{listed};
ghost use Rattle.dotted_maps.specs.Composition.{composed};
ghost use Rattle.dotted_maps.specs.Maps.{AreDotted, AreOneMap, coefficient_in, identity, matrix_of, scaled};
ghost use Rattle.surface_laws.specs.Points.{Points, ArePlaced, AreAmong, IsOpenPairing, circles, inner, least_points};
ghost use Rattle.std.specs.List.{AllByRecursion};
ghost use Rattle.kh_types.specs.Classes.{AreBelow, classes_of};
ghost use Rattle.dotted_maps.specs.Terms.{AreGlued};
ghost use Rattle.dotted_maps.specs.declared.term.Term.{Term};
ghost use Rattle.tangle_maps.specs.Pairings.{ArePartners, joins_of, numbered, opened_points, paired_arcs};
ghost use Rattle.tangle_maps.specs.Sums.{AreReduced, IsSum, number_in, dotted_term};

/// Partners pair the arcs that have another arc for a partner.
pub fn partners_pair_arcs()
    ensures pairing { (partners : List ℕ) → ArePartners partners
        → IsOpenPairing (opened_points (paired_arcs partners))
        (joins_of partners (paired_arcs partners)) }
    ensures among { (partners : List ℕ) → ArePartners partners
        → AreAmong (paired_arcs partners) (joins_of partners (paired_arcs partners)) }
    ensures placed { (partners : List ℕ) → ArePlaced (opened_points (paired_arcs partners)) }
{}

/// A reduced sum whose coefficients are 0 has no term. One is a number other than 0, below p, times
/// the identity where `number_in` gives this number, and there alone.
pub fn reduced_sums_tell_numbers()
    ensures zero { (p : ℕ) (terms : List Term) → AreReduced p terms
        → ((dots : ℕ) → Same p (coefficient_in terms dots) 0) → terms ≡ [] }
    ensures number { (p number : ℕ) (terms : List Term) → 0 < number → number < p
        → AreReduced p terms
        → ((dots : ℕ) → Same p (coefficient_in terms dots)
        (coefficient_in (scaled number identity) dots)) → number_in terms ≡ Some number }
    ensures told { (number : ℕ) (terms : List Term) → number_in terms ≡ Some number
        → terms ≡ scaled number identity }
{}

/// A number times the identity of a pairing, and a map after it, compose to that map times the
/// number.
pub fn multiples_of_the_identity_scale()
    ensures { (points : Points) (m o : List (ℕ × ℕ)) (number : ℕ) (second : List Term)
        → ArePlaced points → IsOpenPairing points m → AreAmong points.opened m
        → AreAmong points.opened o → AreDotted points m o second
        → listed points m m o (dotted_term 0 number ∷ []) second ≡ scaled number second }
{}

/// A sum with more added to it is one map with the two lists together. So what a cancellation makes
/// of an entry has the entry's matrix and a multiple of the product of the two others.
pub fn sums_are_maps()
    ensures map { (p : ℕ) (points : Points) (m n : List (ℕ × ℕ)) (terms more sum : List Term)
        → AreDotted points m n terms → AreDotted points m n more → IsSum p terms more sum
        → AreOneMap p points m n sum (terms ++ more) }
    ensures matrix { (p : ℕ) (points : Points) (m n o w : List (ℕ × ℕ))
        (first second old sum : List Term) (factor row column : ℕ) → ArePlaced points
        → IsOpenPairing points m → AreGlued points m n w → AreGlued points n o w → AreGlued points m o w
        → AreGlued (inner points) m o n → AreDotted points m o old
        → IsSum p old (scaled factor (listed points m n o first second)) sum
        → matrix_of p 0 0 points m o w sum row column
        ≡ (matrix_of p 0 0 points m o w old row column
        + factor * product_at (2 ^ length (circles points n w)) (matrix_of p 0 0 points n o w second)
        (matrix_of p 0 0 points m n w first) row column) % p }
{}

/// Classes and discs of arcs, and compositions, do not depend on the size, where the arcs are below
/// it. So what is composed over POINTS numbers is what is composed over those of a code.
pub fn sizes_do_not_matter()
    ensures class { (n k x : ℕ) (joins : List (ℕ × ℕ)) → n ≤ k → AreBelow n joins → x < n
        → slice_index (classes_of k joins) x ≡ slice_index (classes_of n joins) x }
    ensures least { (n k : ℕ) (points : List ℕ) (joins : List (ℕ × ℕ)) → n ≤ k
        → AllByRecursion (λ x. x < n) points → AreBelow n joins
        → least_points k points joins ≡ least_points n points joins }
    ensures composed { (h minus n k : ℕ) (opened : List ℕ) (m c o : List (ℕ × ℕ)) (dots others kept : ℕ)
        → n ≤ k → ArePlaced (numbered n opened) → IsOpenPairing (numbered n opened) m
        → AreAmong opened m → AreAmong opened c → AreAmong opened o
        → composed h minus (numbered k opened) m c o dots others kept
        ≡ composed h minus (numbered n opened) m c o dots others kept }
{}

/// Nor do they where two sizes are both above the arcs, whichever of them is the greater: so loops,
/// which have numbers above those of arcs, do not matter.
pub fn sizes_above_arcs_do_not_matter()
    ensures class { (l n k x : ℕ) (joins : List (ℕ × ℕ)) → l ≤ n → l ≤ k → AreBelow l joins → x < l
        → slice_index (classes_of k joins) x ≡ slice_index (classes_of n joins) x }
    ensures least { (l n k : ℕ) (points : List ℕ) (joins : List (ℕ × ℕ)) → l ≤ n → l ≤ k
        → AllByRecursion (λ x. x < l) points → AreBelow l joins
        → least_points k points joins ≡ least_points n points joins }
    ensures composed { (h minus l n k : ℕ) (opened : List ℕ) (m c o : List (ℕ × ℕ)) (dots others kept : ℕ)
        → l ≤ n → l ≤ k → ArePlaced (numbered l opened) → IsOpenPairing (numbered l opened) m
        → AreAmong opened m → AreAmong opened c → AreAmong opened o
        → composed h minus (numbered k opened) m c o dots others kept
        ≡ composed h minus (numbered n opened) m c o dots others kept }
{}
