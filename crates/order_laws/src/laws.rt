//! The order of crossings.

ghost use Rattle.std.specs.Prelude.{◌≡◌, ◌↔◌, ℕ, ℤ, List, IsTrue, ◌<◌};
ghost use Rattle.kh_types.specs.Acceptance.{accepted};
ghost use Rattle.kh_types.specs.Code.{Code};
ghost use Rattle.kh_types.specs.Directions.{plus_count, minus_count};
ghost use Rattle.kh_types.specs.Residues.{HasInverses};
ghost use Rattle.kh_types.specs.Table.{dimension};
ghost use Rattle.cell_laws.specs.Cells.{AreComplex, dimension_at};
ghost use Rattle.cell_laws.specs.Cubes.{cube_of};
ghost use Rattle.cell_laws.specs.DeformedCubes.{deformed_cube_of};
ghost use Rattle.cell_laws.specs.Filtered.{AreFiltered, survivors};
ghost use Rattle.order_laws.specs.Orders.{IsReordered, listed_by};

/// The order in which crossings are listed does not matter to the survivors of the deformed cube,
/// nor to whether it is filtered, with any numbers of positive and negative crossings.
pub fn orders_keep_survivors()
    ensures survivors { (p h loops plus minus : ℕ) (first second : List (List ℕ)) → HasInverses p
        → IsReordered first second → (i t : ℤ)
        → survivors p (deformed_cube_of p h (record { crossings = second; loops = loops }) plus minus) i t
        ≡ survivors p (deformed_cube_of p h (record { crossings = first; loops = loops }) plus minus) i t }
    ensures filtered { (p h loops plus minus : ℕ) (first second : List (List ℕ)) → HasInverses p
        → IsReordered first second
        → AreFiltered p (deformed_cube_of p h (record { crossings = first; loops = loops }) plus minus)
        → AreFiltered p (deformed_cube_of p h (record { crossings = second; loops = loops }) plus minus) }
{}

/// Nor does it matter to the dimensions of the plain cube, where h is 0, nor to whether it is a
/// complex.
pub fn orders_keep_the_cube()
    ensures dimensions { (p loops plus minus : ℕ) (first second : List (List ℕ)) → HasInverses p
        → IsReordered first second → (i j : ℤ)
        → dimension_at p (cube_of p (record { crossings = second; loops = loops }) plus minus) i j
        ≡ dimension_at p (cube_of p (record { crossings = first; loops = loops }) plus minus) i j }
    ensures complex { (p loops plus minus : ℕ) (first second : List (List ℕ)) → HasInverses p
        → IsReordered first second
        → AreComplex p (cube_of p (record { crossings = first; loops = loops }) plus minus)
        → AreComplex p (cube_of p (record { crossings = second; loops = loops }) plus minus) }
{}

/// So the dimensions of a code are those of the cube of its crossings in any order, with its own
/// numbers of positive and negative crossings; and those of the code with another order, where
/// these numbers stay.
pub fn orders_keep_dimensions()
    ensures listed { (p : ℕ) (code : Code) (crossings : List (List ℕ)) → HasInverses p
        → IsReordered code.crossings crossings → (i j : ℤ)
        → dimension_at p (cube_of p (record { crossings = crossings; loops = code.loops })
        (plus_count code.crossings) (minus_count code.crossings)) i j ≡ dimension p code i j }
    ensures codes { (p : ℕ) (first second : Code) → HasInverses p
        → IsReordered first.crossings second.crossings → second.loops ≡ first.loops
        → plus_count second.crossings ≡ plus_count first.crossings
        → minus_count second.crossings ≡ minus_count first.crossings
        → (i j : ℤ) → dimension p second i j ≡ dimension p first i j }
{}

/// A code whose crossings are listed in another order is accepted where the code is, and nowhere
/// else.
pub fn reordered_codes_are_accepted()
    ensures accepted { (code : Code) (crossings : List (List ℕ)) → IsTrue (accepted code)
        → IsReordered code.crossings crossings → IsTrue (accepted (listed_by code crossings)) }
    ensures either { (code : Code) (crossings : List (List ℕ)) → IsReordered code.crossings crossings
        → IsTrue (accepted (listed_by code crossings)) ↔ IsTrue (accepted code) }
{}
