//! What the composition of terms and maps is for the entries between labels.

ghost use Rattle.std.specs.Prelude.{◌≡◌, ℕ, ◌+◌, ◌*◌, ◌%◌, ◌^◌, ◌<◌, List, [], ◌++◌, length, nat_eq, if◌then◌else◌};
ghost use Rattle.kh_types.specs.Circles.{smoothings_of, circle_names};
ghost use Rattle.kh_types.specs.Code.{Code};
ghost use Rattle.kh_types.specs.Products.{sum_below, product_at};
ghost use Rattle.kh_types.specs.Residues.{Same};
ghost use Rattle.surface_laws.specs.Surfaces.{weight};
ghost use Rattle.surface_laws.specs.Points.{Points, ArePlaced, AreAmong, IsOpenPairing, inner, discs, circles, whole};
ghost use Rattle.dotted_maps.specs.Terms.{AreGlued, entry};
ghost use Rattle.dotted_maps.specs.Composition.{composed};
ghost use Rattle.dotted_maps.specs.Parts.{components, part_coefficient, part_at, product_over};
ghost use Rattle.dotted_maps.specs.Choices.{listed, listed_with};
ghost use Rattle.dotted_maps.specs.Maps.{matrix_of, IsComposition, composition, identity, scaled, AreOneMap};
ghost use Rattle.dotted_maps.specs.declared.term.Term.{Term};

/// One term after another, summed over the labels of the circles between them, is the sum of the
/// terms of which the composition consists, modulo p, where h and k are together 0; and exactly where
/// both are 0.
pub fn compositions_add_up()
    ensures sum { (p h k : ℕ) (points : Points) (m n o w : List (ℕ × ℕ)) (dots others before after : ℕ) → Same p (h + k) 0
        → ArePlaced points → AreGlued points m n w → AreGlued points n o w → AreGlued points m o w
        → AreGlued (inner points) m o n
        → Same p
        (sum_below (2 ^ length (circles points n w))
        (λ between. entry h k points m n w dots before between * entry h k points n o w others between after))
        (sum_below (2 ^ length (discs points m o))
        (λ kept. composed h k points m n o dots others kept * entry h k points m o w kept before after)) }
    ensures plain { (points : Points) (m n o w : List (ℕ × ℕ)) (dots others before after : ℕ) → ArePlaced points
        → AreGlued points m n w → AreGlued points n o w → AreGlued points m o w → AreGlued (inner points) m o n
        → sum_below (2 ^ length (circles points n w))
        (λ between. entry 0 0 points m n w dots before between * entry 0 0 points n o w others between after)
        ≡ sum_below (2 ^ length (discs points m o))
        (λ kept. composed 0 0 points m n o dots others kept * entry 0 0 points m o w kept before after) }
{}

/// The matrix of a composition of maps is the product of their matrices, modulo p; so a multiple of
/// it that is added to a map adds that multiple of the product. Such a composition is that with a
/// term for each dot set.
pub fn compositions_are_products()
    ensures product { (p h k : ℕ) (points : Points) (m n o w : List (ℕ × ℕ)) (first second whole : List Term) (row column : ℕ)
        → Same p (h + k) 0 → ArePlaced points → AreGlued points m n w → AreGlued points n o w → AreGlued points m o w
        → AreGlued (inner points) m o n → IsComposition p h k points m n o first second whole
        → matrix_of p h k points m o w whole row column
        ≡ product_at (2 ^ length (circles points n w)) (matrix_of p h k points n o w second) (matrix_of p h k points m n w first) row column
        % p }
    ensures added { (p h k : ℕ) (points : Points) (m n o w : List (ℕ × ℕ)) (first second whole old : List Term) (factor row column : ℕ)
        → Same p (h + k) 0 → ArePlaced points → AreGlued points m n w → AreGlued points n o w → AreGlued points m o w
        → AreGlued (inner points) m o n → IsComposition p h k points m n o first second whole
        → matrix_of p h k points m o w (old ++ scaled factor whole) row column
        ≡ (matrix_of p h k points m o w old row column
        + factor * product_at (2 ^ length (circles points n w)) (matrix_of p h k points n o w second)
        (matrix_of p h k points m n w first) row column) % p }
    ensures made { (p h k : ℕ) (points : Points) (m n o : List (ℕ × ℕ)) (first second : List Term)
        → IsComposition p h k points m n o first second (composition p h k points m n o first second) }
{}

/// The identity of a pairing: an entry is 1 where the labels agree, else 0.
pub fn identities_are_identities()
    ensures entry { (h k : ℕ) (points : Points) (m w : List (ℕ × ℕ)) (before after : ℕ) → ArePlaced points → IsOpenPairing points m
        → AreGlued points m m w → before < 2 ^ length (circles points m w) → after < 2 ^ length (circles points m w)
        → entry h k points m m w 0 before after ≡ (if nat_eq before after then 1 else 0) }
    ensures matrix { (p h k : ℕ) (points : Points) (m w : List (ℕ × ℕ)) (row column : ℕ) → ArePlaced points → IsOpenPairing points m
        → AreGlued points m m w → row < 2 ^ length (circles points m w) → column < 2 ^ length (circles points m w)
        → matrix_of p h k points m m w identity row column ≡ (if nat_eq row column then 1 else 0) % p }
{}

/// Matrices of sums and multiples of maps are those of the matrices, modulo p, and depend on the
/// coefficients alone.
pub fn matrices_are_linear()
    ensures sum { (p h k : ℕ) (points : Points) (m n w : List (ℕ × ℕ)) (first second : List Term) (row column : ℕ)
        → matrix_of p h k points m n w (first ++ second) row column
        ≡ (matrix_of p h k points m n w first row column + matrix_of p h k points m n w second row column) % p }
    ensures multiple { (p h k : ℕ) (points : Points) (m n w : List (ℕ × ℕ)) (factor : ℕ) (terms : List Term) (row column : ℕ)
        → matrix_of p h k points m n w (scaled factor terms) row column ≡ factor * matrix_of p h k points m n w terms row column % p }
    ensures same { (p h k : ℕ) (points : Points) (m n w : List (ℕ × ℕ)) (terms others : List Term) (row column : ℕ)
        → AreOneMap p points m n terms others
        → matrix_of p h k points m n w terms row column ≡ matrix_of p h k points m n w others row column }
{}

/// A coefficient of a composition is a product over the components of the three pairings: the
/// weight of each, by its genus, the dots of both terms and the discs that are not dotted. Where h
/// and k are 0, on each all discs are dotted, or all but one, and the coefficient is 1, or 2 for
/// genus 1.
pub fn compositions_have_parts()
    ensures parts { (h k : ℕ) (points : Points) (m n o : List (ℕ × ℕ)) (dots others kept : ℕ) → ArePlaced points
        → IsOpenPairing points m → AreAmong points.opened m → AreAmong points.opened n → AreAmong points.opened o
        → composed h k points m n o dots others kept
        ≡ product_over (part_at h k points m n o dots others kept) (components points m n o) }
    ensures plain { (genus dots undotted : ℕ) → weight 0 0 genus dots undotted ≡ part_coefficient genus dots undotted }
{}

/// Before the first crossing the circles of the empty pairing, in any state, are the state's
/// circles in their order, so that labels are those of the cube's generators; there are no discs.
pub fn nothing_is_opened_at_first()
    ensures circles { (code : Code) (state : ℕ) → circles (whole code) [] (smoothings_of code.crossings state) ≡ circle_names code state }
    ensures discs { (code : Code) → discs (whole code) [] [] ≡ [] }
{}

/// The composition of two maps as a list, for each two terms dot sets among which all are that count,
/// disc by disc: it is their composition. Where h and k are 0 it is the shorter list of `listed`.
pub fn compositions_are_listed()
    ensures listed { (p h k : ℕ) (points : Points) (m n o : List (ℕ × ℕ)) (first second : List Term) → ArePlaced points
        → IsOpenPairing points m → AreAmong points.opened m → AreAmong points.opened n → AreAmong points.opened o
        → IsComposition p h k points m n o first second (listed_with h k points m n o first second) }
    ensures plain { (points : Points) (m n o : List (ℕ × ℕ)) (first second : List Term)
        → listed_with 0 0 points m n o first second ≡ listed points m n o first second }
{}
