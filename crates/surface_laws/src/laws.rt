//! What cuts, other names, other orders and unions keep of a surface's number. It has two parameters, h and k; where a surface is cut,
//! their sum is 0 modulo p.

ghost use Rattle.std.specs.Prelude.{◌≡◌, ℕ, ◌+◌, ◌*◌, List, [], ◌∷◌};
ghost use Rattle.std.specs.List.{Contains};
ghost use Rattle.kh_types.specs.Residues.{Same};
ghost use Rattle.surface_laws.specs.Surfaces.{Surface, IsPlaced, IsClosed, weight, plain_weight, value, plain_value};
ghost use Rattle.surface_laws.specs.Cuts.{with_faces, capped, glued, sum_over_labels, AreOn, union, first_caps, second_caps, AreBetween, glued_two, sum_of_products};
ghost use Rattle.surface_laws.specs.Overlays.{overlaid, at_places, MeetAlong};
ghost use Rattle.surface_laws.specs.Projections.{KeepsComponents, LeadsBack, Corresponds, LieAlike, Projects, IsRelisted};

/// Where h and k are 0, both kinds of dots count alike, and numbers are those of the marks. Cuts add
/// up exactly then: that is the law of cuts modulo 0.
pub fn plain_numbers()
    ensures weights { (genus dots hollows : ℕ) → weight 0 0 genus dots hollows ≡ plain_weight genus (dots + hollows) }
    ensures values { (surface : Surface) → value 0 0 surface ≡ plain_value surface }
    ensures cuts { (surface : Surface) (circles : List (ℕ × ℕ)) (label : ℕ) → IsPlaced surface → AreOn surface circles
        → IsClosed (capped surface circles label) → sum_over_labels 0 0 surface circles ≡ value 0 0 (glued surface circles) }
{}

/// A surface cut along one circle: two discs less and two places joined is the sum of a dot on one
/// of the discs and a hollow dot on the other, modulo p.
pub fn one_cut_adds_up()
    ensures closed { (surface : Surface) (a b : ℕ) → IsPlaced surface → Contains surface.places a → Contains surface.places b
        → IsClosed (with_faces surface ((a, 0) ∷ (b, 2) ∷ [])) → IsClosed (glued surface ((a, b) ∷ [])) }
    ensures sum { (p h k : ℕ) (surface : Surface) (a b : ℕ) → Same p (h + k) 0 → IsPlaced surface → Contains surface.places a → Contains surface.places b
        → IsClosed (with_faces surface ((a, 0) ∷ (b, 2) ∷ []))
        → Same p
        (value h k (with_faces surface ((a, 0) ∷ (b, 2) ∷ [])) + value h k (with_faces surface ((a, 1) ∷ (b, 0) ∷ [])))
        (value h k (glued surface ((a, b) ∷ []))) }
{}

/// A surface that is glued along circles is closed where the cut one is, and its number is the sum,
/// over all labels of the circles, of the numbers of the cut one, modulo p.
pub fn cuts_add_up()
    ensures closed { (surface : Surface) (circles : List (ℕ × ℕ)) (label : ℕ) → IsPlaced surface → AreOn surface circles
        → IsClosed (capped surface circles label) → IsClosed (glued surface circles) }
    ensures sum { (p h k : ℕ) (surface : Surface) (circles : List (ℕ × ℕ)) (label : ℕ) → Same p (h + k) 0 → IsPlaced surface
        → AreOn surface circles → IsClosed (capped surface circles label)
        → Same p (sum_over_labels h k surface circles) (value h k (glued surface circles)) }
{}

/// The same for two surfaces that are glued along circles between them: the sum is that of
/// products, with the discs of the first sides on the one and those of the second sides on the
/// other, modulo p.
pub fn products_add_up()
    ensures closed { (first second : Surface) (circles : List (ℕ × ℕ)) (label : ℕ) → IsPlaced first → IsPlaced second
        → AreBetween first second circles → IsClosed (with_faces first (first_caps circles label))
        → IsClosed (with_faces second (second_caps circles label)) → IsClosed (glued_two first second circles) }
    ensures sum { (p h k : ℕ) (first second : Surface) (circles : List (ℕ × ℕ)) (label : ℕ) → Same p (h + k) 0
        → IsPlaced first → IsPlaced second → AreBetween first second circles → IsClosed (with_faces first (first_caps circles label))
        → IsClosed (with_faces second (second_caps circles label))
        → Same p (sum_of_products h k first second circles) (value h k (glued_two first second circles)) }
{}

/// Surfaces with the same components under other names, and the same counts on them, are closed
/// together, and have one number. The counts are the same where faces and strips lie on the
/// components of theirs, or even at their places, in any order.
pub fn names_do_not_matter()
    ensures closed { (f : ℕ → ℕ) (old new : Surface) → Corresponds f old new → IsClosed old → IsClosed new }
    ensures back { (f : ℕ → ℕ) (old new : Surface) → Corresponds f old new → IsClosed new → IsClosed old }
    ensures same { (h k : ℕ) (f : ℕ → ℕ) (old new : Surface) → IsPlaced old → IsPlaced new → Corresponds f old new
        → value h k old ≡ value h k new }
    ensures alike { (f : ℕ → ℕ) (old new : Surface) → IsPlaced old → KeepsComponents f old new → LieAlike f old new
        → Corresponds f old new }
    ensures places { (f : ℕ → ℕ) (old new : Surface) → IsPlaced old → Projects f old new → Corresponds f old new }
{}

/// Components are the same where joined places are together in both directions.
pub fn joins_lead_back()
    ensures { (f back : ℕ → ℕ) (old new : Surface) → IsPlaced old → IsPlaced new → LeadsBack f back old new
        → KeepsComponents f old new }
{}

/// The order of faces and strips does not matter.
pub fn orders_do_not_matter()
    ensures closed { (old new : Surface) → IsRelisted old new → IsClosed old → IsClosed new }
    ensures same { (h k : ℕ) (old new : Surface) → IsRelisted old new → value h k old ≡ value h k new }
{}

/// The number of two surfaces side by side is the product of theirs, and they are closed where both
/// are.
pub fn unions_multiply()
    ensures placed { (first second : Surface) → IsPlaced first → IsPlaced second → IsPlaced (union first second) }
    ensures closed { (first second : Surface) → IsPlaced first → IsPlaced second → IsClosed first → IsClosed second
        → IsClosed (union first second) }
    ensures product { (h k : ℕ) (first second : Surface) → IsPlaced first → IsPlaced second
        → value h k (union first second) ≡ value h k first * value h k second }
{}

/// Two surfaces that meet along circles at places of both: the sum, over all labels of these
/// circles, of the products of their numbers is the number of the one surface that has all of both,
/// modulo p.
pub fn overlays_add_up()
    ensures closed { (first second : Surface) (circles : List ℕ) (label : ℕ) → IsPlaced first → IsPlaced second
        → MeetAlong first second circles → IsClosed (with_faces first (first_caps (at_places circles) label))
        → IsClosed (with_faces second (second_caps (at_places circles) label)) → IsClosed (overlaid first second) }
    ensures sum { (p h k : ℕ) (first second : Surface) (circles : List ℕ) (label : ℕ) → Same p (h + k) 0
        → IsPlaced first → IsPlaced second → MeetAlong first second circles → IsClosed (with_faces first (first_caps (at_places circles) label))
        → IsClosed (with_faces second (second_caps (at_places circles) label))
        → Same p (sum_of_products h k first second (at_places circles)) (value h k (overlaid first second)) }
{}
