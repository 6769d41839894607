//! What depends on which slots hold one name, and not on the names.

ghost use Rattle.std.specs.Prelude.{◌≡◌, ◌<◌, ◌+◌, ◌*◌, ℕ, ℤ, List, length};
ghost use Rattle.kh_types.specs.Code.{Code};
ghost use Rattle.kh_types.specs.Darts.{arc_of, dart_at, partner_at, HasArcsTwice};
ghost use Rattle.kh_types.specs.Classes.{classes_of, class_count};
ghost use Rattle.kh_types.specs.Faces.{faces_of, face_count, pieces_of, planar_face_count};
ghost use Rattle.kh_types.specs.Checkerboard.{IsCheckerboard};
ghost use Rattle.kh_types.specs.Circles.{smoothings_of, circle_count};
ghost use Rattle.kh_types.specs.Directions.{plus_count};
ghost use Rattle.kh_types.specs.StateSum.{state_sum};
ghost use Rattle.code_passes.specs.Parts.{Parts, ArePaired};
ghost use Rattle.orient_arcs.specs.Renumbered.{renumber};
ghost use Rattle.orient_arcs.specs.Alike.{HasNamesBelow};
ghost use Rattle.gluing_laws.specs.Alike.{AreAlike};

/// An injective renaming leaves crossings alike, and so does renumbering.
pub fn renamed_crossings_are_alike()
    ensures back { (crossings others : List (List ℕ)) → AreAlike crossings others → AreAlike others crossings }
    ensures then { (crossings others third : List (List ℕ)) → AreAlike crossings others → AreAlike others third
        → AreAlike crossings third }
    ensures renamed { (f : ℕ → ℕ) (crossings others : List (List ℕ)) → length others ≡ length crossings
        → ((place : ℕ) → place < 4 * length crossings → arc_of others (dart_at place) ≡ f (arc_of crossings (dart_at place)))
        → ((place other : ℕ) → place < 4 * length crossings → other < 4 * length crossings
        → f (arc_of crossings (dart_at place)) ≡ f (arc_of crossings (dart_at other))
        → arc_of crossings (dart_at place) ≡ arc_of crossings (dart_at other))
        → AreAlike crossings others }
    ensures renumbered { (parts : Parts) → ArePaired parts → AreAlike parts.crossings (renumber parts).crossings }
{}

/// Crossings that are alike have the same faces and pieces, and a checkerboard choice for both or
/// none.
pub fn alike_crossings_have_the_same_faces()
    ensures partners { (crossings others : List (List ℕ)) → AreAlike crossings others → (place : ℕ) → place < 4 * length crossings
        → partner_at others place ≡ partner_at crossings place }
    ensures faces { (crossings others : List (List ℕ)) → AreAlike crossings others → faces_of others ≡ faces_of crossings }
    ensures pieces { (crossings others : List (List ℕ)) → AreAlike crossings others → pieces_of others ≡ pieces_of crossings }
    ensures planar { (crossings others : List (List ℕ)) → AreAlike crossings others
        → face_count crossings ≡ planar_face_count crossings → face_count others ≡ planar_face_count others }
    ensures checkerboard { (crossings others : List (List ℕ)) → AreAlike crossings others → HasArcsTwice crossings
        → HasArcsTwice others → IsCheckerboard crossings → IsCheckerboard others }
{}

/// They have as many circles in each state; so their state sums are one where they have as many
/// positive crossings and loops.
pub fn alike_codes_have_one_state_sum()
    ensures classes { (m n : ℕ) (crossings others : List (List ℕ)) → AreAlike crossings others → HasNamesBelow m crossings
        → HasNamesBelow n others → (state : ℕ)
        → class_count (classes_of n (smoothings_of others state)) + m
        ≡ class_count (classes_of m (smoothings_of crossings state)) + n }
    ensures circles { (old new : Code) → AreAlike old.crossings new.crossings → new.loops ≡ old.loops
        → HasArcsTwice old.crossings → HasArcsTwice new.crossings → (state : ℕ) → circle_count new state ≡ circle_count old state }
    ensures sums { (old new : Code) → AreAlike old.crossings new.crossings → new.loops ≡ old.loops
        → HasArcsTwice old.crossings → HasArcsTwice new.crossings → plus_count new.crossings ≡ plus_count old.crossings
        → (exponent : ℤ) → state_sum new exponent ≡ state_sum old exponent }
{}
