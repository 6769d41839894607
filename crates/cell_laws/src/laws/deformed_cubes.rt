//! The deformed cube as cells: a filtered complex, and the plain cube where h is 0.

ghost use Rattle.std.specs.Prelude.{◌≡◌, ℕ, ◌<◌, IsTrue};
ghost use Rattle.kh_types.specs.Acceptance.{accepted};
ghost use Rattle.kh_types.specs.Code.{Code};
ghost use Rattle.cell_laws.specs.Cubes.{cube_of};
ghost use Rattle.cell_laws.specs.DeformedCubes.{deformed_cube_of};
ghost use Rattle.cell_laws.specs.Filtered.{AreFiltered};

/// With h = 0 it is the plain cube.
pub fn deformed_cubes_at_zero_are_cubes()
    ensures { (p : ℕ) (code : Code) (plus minus : ℕ) → 1 < p
        → deformed_cube_of p 0 code plus minus ≡ cube_of p code plus minus }
{}

/// The deformed cube of an accepted code is a filtered complex, with any numbers of positive and
/// negative crossings.
pub fn deformed_cubes_are_filtered()
    ensures { (p h : ℕ) (code : Code) (plus minus : ℕ) → 0 < p → IsTrue (accepted code)
        → AreFiltered p (deformed_cube_of p h code plus minus) }
{}
