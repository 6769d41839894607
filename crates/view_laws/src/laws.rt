//! The cube through a view: edges by partitions, cubes that are cut, and codes that are seen alike.

ghost use Rattle.std.specs.Prelude.{◌≡◌, ◌≢◌, ℕ, ◌+◌, ◌*◌, ◌%◌, ◌^◌, ◌<◌, ℤ, List, [], ◌∷◌, length, nat_eq, Bool, IsTrue};
ghost use Rattle.std.specs.List.{Contains};
ghost use Rattle.kh_types.specs.Acceptance.{accepted};
ghost use Rattle.kh_types.specs.Bits.{bit, ones};
ghost use Rattle.kh_types.specs.Code.{Code};
ghost use Rattle.kh_types.specs.Differential.{coefficient};
ghost use Rattle.kh_types.specs.Directions.{minus_count, plus_count};
ghost use Rattle.kh_types.specs.Generators.{Generator};
ghost use Rattle.kh_types.specs.Residues.{HasInverses};
ghost use Rattle.kh_types.specs.Table.{dimension};
ghost use Rattle.square_laws.specs.Deformed.{deformed_coefficient, opposite};
ghost use Rattle.gluing_laws.specs.Codes.{IsRenumbered};
ghost use Rattle.cell_laws.specs.Cells.{AreComplex, dimension_at};
ghost use Rattle.cell_laws.specs.Cubes.{cube_of};
ghost use Rattle.cell_laws.specs.DeformedCubes.{deformed_cube_of};
ghost use Rattle.cell_laws.specs.Filtered.{AreFiltered, survivors};
ghost use Rattle.cell_laws.specs.Layers.{IsTimesIdentity, cells_of};
ghost use Rattle.view_laws.specs.Partitions.{AgreeOn, deformed_saddle_number, label_in, saddle_number, seen, seen_count};
ghost use Rattle.view_laws.specs.Views.{HasCircles, IsInnerStep, IsPlain, IsView, SeeAlike, View, joint_state, plain_view, together};
ghost use Rattle.view_laws.specs.ViewLayers.{inside_of, label_of_seen, object_of, outer_count, outer_number, view_layers};
ghost use Rattle.cell_laws.specs.Signs.{sign_of_power};

/// In an accepted code circles have names, and edges merge or split.
pub fn accepted_codes_have_circles()
    ensures { (code : Code) → IsTrue (accepted code) → HasCircles code }
{}

/// The deformed coefficient along an edge is known by which names are together before and behind:
/// it is the sign times the saddle's number of the two partitions, modulo p. The plain coefficient
/// is the sign times the plain number.
pub fn edges_are_known_by_partitions()
    ensures deformed { (p h : ℕ) (code : Code) (names : List ℕ) (arc : ℕ → ℕ) (x y : Generator)
        (place : ℕ) → HasCircles code → IsPlain code names arc → x.state < 2 ^ length code.crossings
        → place < length code.crossings → bit x.state place ≡ 0 → y.state ≡ x.state + 2 ^ place
        → deformed_coefficient p h code x y ≡ sign_of_power p (ones place x.state)
        * deformed_saddle_number h (opposite p h) (together code (plain_view names arc) x.state)
        (together code (plain_view names arc) y.state) names
        (label_of_seen code (plain_view names arc) x)
        (label_of_seen code (plain_view names arc) y) % p }
    ensures plain { (p : ℕ) (code : Code) (names : List ℕ) (arc : ℕ → ℕ) (x y : Generator)
        (place : ℕ) → HasCircles code → IsPlain code names arc → x.state < 2 ^ length code.crossings
        → place < length code.crossings → bit x.state place ≡ 0 → y.state ≡ x.state + 2 ^ place
        → coefficient p code x y ≡ sign_of_power p (ones place x.state)
        * saddle_number (together code (plain_view names arc) x.state)
        (together code (plain_view names arc) y.state) names
        (label_of_seen code (plain_view names arc) x)
        (label_of_seen code (plain_view names arc) y) }
{}

/// What is seen, labels and saddles' numbers depend only on which names are together; and with
/// h = k = 0 the number of a saddle is the plain one.
pub fn partitions_are_seen_alike()
    ensures seen { (first second : ℕ → ℕ → Bool) (names : List ℕ) → AgreeOn names first second
        → seen first names ≡ seen second names }
    ensures labels { (first second : ℕ → ℕ → Bool) (names : List ℕ) (label x : ℕ)
        → AgreeOn names first second → Contains names x
        → label_in first names label x ≡ label_in second names label x }
    ensures saddles { (before behind other_before other_behind : ℕ → ℕ → Bool) (names : List ℕ)
        (label other : ℕ) → AgreeOn names before other_before → AgreeOn names behind other_behind
        → (h k : ℕ) → deformed_saddle_number h k before behind names label other
        ≡ deformed_saddle_number h k other_before other_behind names label other }
    ensures plain { (before behind : ℕ → ℕ → Bool) (names : List ℕ) (label other : ℕ)
        → deformed_saddle_number 0 0 before behind names label other
        ≡ saddle_number before behind names label other }
    ensures outer { (p h count ones_inside other_ones : ℕ) (relation other : ℕ → ℕ → ℕ → Bool)
        (names : List ℕ) (s t label other_label : ℕ) → ones_inside % 2 ≡ other_ones % 2
        → AgreeOn names (relation s) (other s) → AgreeOn names (relation t) (other t)
        → outer_number p h count ones_inside relation names s t label other_label
        ≡ outer_number p h count other_ones other names s t label other_label }
{}

/// The deformed cube of a code has the survivors of the layers of each of its views, and these are
/// filtered where it is; so with h = 0 the cube has the dimensions of its layers, and these are a
/// complex where it is one.
pub fn cubes_are_cut()
    ensures survivors { (p h : ℕ) (code : Code) (view : View) (plus minus : ℕ) → HasInverses p
        → HasCircles code → IsView code view → (i t : ℤ)
        → survivors p (cells_of (view_layers p h code plus minus view)) i t
        ≡ survivors p (deformed_cube_of p h code plus minus) i t }
    ensures filtered { (p h : ℕ) (code : Code) (view : View) (plus minus : ℕ) → 0 < p
        → HasCircles code → IsView code view → AreFiltered p (deformed_cube_of p h code plus minus)
        → AreFiltered p (cells_of (view_layers p h code plus minus view)) }
    ensures dimensions { (p : ℕ) (code : Code) (view : View) (plus minus : ℕ) → HasInverses p
        → HasCircles code → IsView code view → (i j : ℤ)
        → dimension_at p (cells_of (view_layers p 0 code plus minus view)) i j
        ≡ dimension_at p (cube_of p code plus minus) i j }
    ensures complex { (p : ℕ) (code : Code) (view : View) (plus minus : ℕ) → 1 < p
        → HasCircles code → IsView code view → AreComplex p (cube_of p code plus minus)
        → AreComplex p (cells_of (view_layers p 0 code plus minus view)) }
{}

/// Within an outer state the coefficient is 0 but along a step of the inner crossings; and where
/// nothing closes it is the sign times the saddle's number, modulo p.
pub fn inner_coefficients()
    ensures none { (p h : ℕ) (code : Code) (plus minus : ℕ) (view : View) → IsView code view
        → HasCircles code → (first second s label other : ℕ)
        → ((i : ℕ) → IsInnerStep view (inside_of view first) (inside_of view second) i → ⊥)
        → (view_layers p h code plus minus view).inner first second s label other ≡ 0 }
    ensures saddle { (p h : ℕ) (code : Code) (plus minus : ℕ) (view : View) → IsView code view
        → HasCircles code → (t u i : ℕ) → IsInnerStep view t u i → (s : ℕ)
        → s < 2 ^ outer_count code view → view.closed t ≡ [] → view.closed u ≡ []
        → (label other : ℕ)
        → label < 2 ^ seen_count (together code view (joint_state view t s)) view.names
        → other < 2 ^ seen_count (together code view (joint_state view u s)) view.names
        → (view_layers p h code plus minus view).inner (object_of view t 0)
        (object_of view u 0) s label other
        ≡ sign_of_power p (ones i t) * deformed_saddle_number h (opposite p h)
        (together code view (joint_state view t s))
        (together code view (joint_state view u s)) view.names label other % p }
{}

/// Where a circle closes inside before a step of the inner crossings and none does behind it, and
/// all names are together alike, the entry from the object where that circle has the label v+ is a
/// sign times the identity, whatever h is. So is the entry to the object where it has the label v-,
/// where it closes behind.
pub fn small_circles_come_and_go()
    ensures merged { (p h : ℕ) (code : Code) (plus minus : ℕ) (view : View) → IsView code view
        → HasCircles code → (t u i z : ℕ) → 1 < p → IsInnerStep view t u i
        → view.closed t ≡ z ∷ [] → view.closed u ≡ []
        → ((s : ℕ) → s < 2 ^ outer_count code view
        → SeeAlike code view (joint_state view t s) code view (joint_state view u s))
        → IsTimesIdentity (view_layers p h code plus minus view) (object_of view t 0)
        (object_of view u 0) (sign_of_power p (ones i t)) }
    ensures split { (p h : ℕ) (code : Code) (plus minus : ℕ) (view : View) → IsView code view
        → HasCircles code → (t u i z : ℕ) → 1 < p → IsInnerStep view t u i
        → view.closed t ≡ [] → view.closed u ≡ z ∷ []
        → ((s : ℕ) → s < 2 ^ outer_count code view
        → SeeAlike code view (joint_state view u s) code view (joint_state view t s))
        → IsTimesIdentity (view_layers p h code plus minus view) (object_of view t 0)
        (object_of view u 1) (sign_of_power p (ones i t)) }
{}

/// Codes with as many crossings that are seen alike at each state, through views without inner
/// crossings, have deformed cubes with the same survivors.
pub fn codes_seen_alike_have_the_same_survivors()
    ensures { (p h : ℕ) (old new : Code) (plus minus : ℕ) (names : List ℕ) (arc new_arc : ℕ → ℕ)
        → HasInverses p → HasCircles old → HasCircles new → IsPlain old names arc
        → IsPlain new names new_arc → length new.crossings ≡ length old.crossings
        → ((state : ℕ) → state < 2 ^ length old.crossings
        → SeeAlike old (plain_view names arc) state new (plain_view names new_arc) state)
        → (i t : ℤ) → survivors p (deformed_cube_of p h new plus minus) i t
        ≡ survivors p (deformed_cube_of p h old plus minus) i t }
{}

/// So have their plain cubes the same dimensions.
pub fn codes_seen_alike_have_the_same_dimensions()
    ensures { (p : ℕ) (old new : Code) (plus minus : ℕ) (names : List ℕ) (arc new_arc : ℕ → ℕ)
        → HasInverses p → HasCircles old → HasCircles new → IsPlain old names arc
        → IsPlain new names new_arc → length new.crossings ≡ length old.crossings
        → ((state : ℕ) → state < 2 ^ length old.crossings
        → SeeAlike old (plain_view names arc) state new (plain_view names new_arc) state)
        → (i j : ℤ) → dimension_at p (cube_of p new plus minus) i j
        ≡ dimension_at p (cube_of p old plus minus) i j }
{}

/// A code under other numbers has the same dimensions, where its crossings keep their signs.
pub fn numbers_do_not_matter()
    ensures { (p : ℕ) (f : ℕ → ℕ) (old new : Code) → HasInverses p → IsTrue (accepted old)
        → IsTrue (accepted new) → IsRenumbered f old new
        → plus_count new.crossings ≡ plus_count old.crossings
        → minus_count new.crossings ≡ minus_count old.crossings
        → (i j : ℤ) → dimension p new i j ≡ dimension p old i j }
{}

/// Nor do numbers matter to survivors.
pub fn numbers_do_not_matter_to_survivors()
    ensures { (p h : ℕ) (f : ℕ → ℕ) (old new : Code) → HasInverses p → IsTrue (accepted old)
        → IsTrue (accepted new) → IsRenumbered f old new
        → plus_count new.crossings ≡ plus_count old.crossings
        → minus_count new.crossings ≡ minus_count old.crossings → (i t : ℤ) → survivors p
        (deformed_cube_of p h new (plus_count new.crossings) (minus_count new.crossings)) i t
        ≡ survivors p
        (deformed_cube_of p h old (plus_count old.crossings) (minus_count old.crossings)) i t }
{}
