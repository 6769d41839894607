//! The homology of disjoint unions over a field.

ghost use Rattle.std.specs.Prelude.{◌≡◌, ◌+◌, ◌*◌, ◌≤◌, ℕ, ℤ, length, pos, ◌+ℤ◌, ◌-ℤ◌, IsTrue};
ghost use Rattle.kh_types.specs.Acceptance.{accepted};
ghost use Rattle.kh_types.specs.Code.{Code};
ghost use Rattle.kh_types.specs.Components.{component_count};
ghost use Rattle.kh_types.specs.Generators.{Generator};
ghost use Rattle.kh_types.specs.Residues.{HasInverses};
ghost use Rattle.kh_types.specs.Table.{dimension, table};
ghost use Rattle.kh_types.specs.WorkedCodes.{one_loop};
ghost use Rattle.kh_types.specs.declared.limits.TheConstants.{CROSSINGS};
ghost use Rattle.prime_field.specs.Residues.{IsSmallPrime};
ghost use Rattle.cell_laws.specs.Alike.{AreAlike};
ghost use Rattle.cell_laws.specs.Cubes.{cube_of};
ghost use Rattle.link_algebra.specs.Unions.{union_of};
ghost use Rattle.product_laws.specs.Products.{product_complex, product_dimension};
ghost use Rattle.union_laws.specs.Cubes.{first_factor, second_factor, united};
ghost use Rattle.union_laws.specs.Loops.{beside_loops, with_loops};
ghost use Rattle.union_laws.specs.UnitedRows.{rows_product};

/// The cube of a union is the product of the cubes, generator by generator; where a generator of
/// the first code stays, the sign of the second's differential is -1 to the number of its
/// 1-smoothings.
pub fn cubes_of_unions_are_products()
    ensures { (p plus minus second_plus second_minus : ℕ) (first second : Code) → HasInverses p
        → IsTrue (accepted first) → IsTrue (accepted second)
        → AreAlike p (united first second) (λ (pair : Generator × Generator). 1)
        (product_complex p (first_factor p first plus minus)
        (second_factor p second second_plus second_minus))
        (cube_of p (union_of first second) (plus + second_plus) (minus + second_minus)) }
{}

/// Over a field the dimensions of a union are the products of the dimensions, summed over all
/// degrees of the one code or of the other (Kuenneth's formula; Khovanov 2000); `small` says so of
/// the four fields of the program. The union need not be accepted.
pub fn unions_multiply_dimensions()
    ensures first { (p most : ℕ) (first second : Code) → HasInverses p → IsTrue (accepted first)
        → IsTrue (accepted second)
        → 3 * length first.crossings + component_count first.crossings + first.loops ≤ most
        → (i j : ℤ) → dimension p (union_of first second) i j
        ≡ product_dimension (length first.crossings) most
        (dimension p first) (dimension p second) i j }
    ensures second { (p most : ℕ) (first second : Code) → HasInverses p → IsTrue (accepted first)
        → IsTrue (accepted second)
        → 3 * length second.crossings + component_count second.crossings + second.loops ≤ most
        → (i j : ℤ) → dimension p (union_of first second) i j
        ≡ product_dimension (length second.crossings) most
        (dimension p second) (dimension p first) i j }
    ensures small { (p most : ℕ) (first second : Code) → IsSmallPrime p → IsTrue (accepted first)
        → IsTrue (accepted second)
        → 3 * length first.crossings + component_count first.crossings + first.loops ≤ most
        → (i j : ℤ) → dimension p (union_of first second) i j
        ≡ product_dimension (length first.crossings) most
        (dimension p first) (dimension p second) i j }
{}

/// So the table of a union is known by the two tables: its dimension at (i, j) is the sum of the
/// products of the dimensions of a row of either, over all pairs of rows whose degrees add up to i
/// and j. (A table has a row where the dimension is not 0: `tables_have_all_rows`.)
pub fn unions_multiply_tables()
    ensures rows { (p : ℕ) (first second : Code) → HasInverses p → IsTrue (accepted first)
        → IsTrue (accepted second) → length first.crossings ≤ CROSSINGS
        → length second.crossings ≤ CROSSINGS → (i j : ℤ)
        → dimension p (union_of first second) i j
        ≡ rows_product (table p first).rows (table p second).rows i j }
    ensures small { (p : ℕ) (first second : Code) → IsSmallPrime p → IsTrue (accepted first)
        → IsTrue (accepted second) → length first.crossings ≤ CROSSINGS
        → length second.crossings ≤ CROSSINGS → (i j : ℤ)
        → dimension p (union_of first second) i j
        ≡ rows_product (table p first).rows (table p second).rows i j }
{}

/// And the order of the two does not matter, neither for dimensions nor for tables.
pub fn unions_commute()
    ensures dimensions { (p : ℕ) (first second : Code) → HasInverses p → IsTrue (accepted first)
        → IsTrue (accepted second) → (i j : ℤ)
        → dimension p (union_of second first) i j ≡ dimension p (union_of first second) i j }
    ensures tables { (p : ℕ) (first second : Code) → HasInverses p → IsTrue (accepted first)
        → IsTrue (accepted second)
        → table p (union_of second first) ≡ table p (union_of first second) }
    ensures small { (p : ℕ) (first second : Code) → IsSmallPrime p → IsTrue (accepted first)
        → IsTrue (accepted second)
        → table p (union_of second first) ≡ table p (union_of first second) }
{}

/// And a loop multiplies by q + 1/q: one that is added, and all that a code has; `small` says so of
/// the four fields of the program.
pub fn loops_multiply_dimensions()
    ensures one { (p : ℕ) (code : Code) → HasInverses p → IsTrue (accepted code) → (i j : ℤ)
        → dimension p (union_of code one_loop) i j
        ≡ dimension p code i (j -ℤ pos 1) + dimension p code i (j +ℤ pos 1) }
    ensures all { (p : ℕ) (code : Code) → HasInverses p → IsTrue (accepted code) → (i j : ℤ)
        → dimension p code i j
        ≡ beside_loops code.loops (dimension p (with_loops code 0)) i j }
    ensures small { (p : ℕ) (code : Code) → IsSmallPrime p → IsTrue (accepted code) → (i j : ℤ)
        → dimension p code i j
        ≡ beside_loops code.loops (dimension p (with_loops code 0)) i j }
{}
