//! Reduced dimensions of disjoint unions.

ghost use Rattle.std.specs.Prelude.{◌≡◌, ◌+◌, ◌*◌, ◌<◌, ◌≤◌, ℕ, ℤ, length, IsTrue};
ghost use Rattle.kh_types.specs.Acceptance.{accepted};
ghost use Rattle.kh_types.specs.CircleNumbers.{IsName};
ghost use Rattle.kh_types.specs.Code.{Code};
ghost use Rattle.kh_types.specs.Components.{component_count};
ghost use Rattle.kh_types.specs.Residues.{HasInverses};
ghost use Rattle.kh_types.specs.Table.{dimension};
ghost use Rattle.prime_field.specs.Residues.{IsSmallPrime};
ghost use Rattle.link_algebra.specs.Unions.{union_of};
ghost use Rattle.reduced_cube.specs.Reduced.{reduced_dimension};
ghost use Rattle.product_laws.specs.Products.{product_dimension};
ghost use Rattle.reduced_union_laws.specs.UnitedMarks.{first_mark, second_mark};

/// Over a field the reduced dimensions of a union are the products of the reduced dimensions of the
/// code that has the mark and the dimensions of the other, summed over all degrees of the first;
/// `small_first` and `small_second` say so of the four fields of the program.
pub fn reduced_unions_multiply()
    ensures first { (p most mark : ℕ) (first second : Code) → HasInverses p
        → IsTrue (accepted first) → IsTrue (accepted second) → IsName first mark
        → 3 * length first.crossings + component_count first.crossings + first.loops < most
        → (i j : ℤ)
        → reduced_dimension p (union_of first second) (first_mark first second mark) i j
        ≡ product_dimension (length first.crossings) most
        (reduced_dimension p first mark) (dimension p second) i j }
    ensures second { (p most mark : ℕ) (first second : Code) → HasInverses p
        → IsTrue (accepted first) → IsTrue (accepted second) → IsName second mark
        → 3 * length first.crossings + component_count first.crossings + first.loops ≤ most
        → (i j : ℤ)
        → reduced_dimension p (union_of first second) (second_mark first second mark) i j
        ≡ product_dimension (length first.crossings) most
        (dimension p first) (reduced_dimension p second mark) i j }
    ensures small_first { (p most mark : ℕ) (first second : Code) → IsSmallPrime p
        → IsTrue (accepted first) → IsTrue (accepted second) → IsName first mark
        → 3 * length first.crossings + component_count first.crossings + first.loops < most
        → (i j : ℤ)
        → reduced_dimension p (union_of first second) (first_mark first second mark) i j
        ≡ product_dimension (length first.crossings) most
        (reduced_dimension p first mark) (dimension p second) i j }
    ensures small_second { (p most mark : ℕ) (first second : Code) → IsSmallPrime p
        → IsTrue (accepted first) → IsTrue (accepted second) → IsName second mark
        → 3 * length first.crossings + component_count first.crossings + first.loops ≤ most
        → (i j : ℤ)
        → reduced_dimension p (union_of first second) (second_mark first second mark) i j
        ≡ product_dimension (length first.crossings) most
        (dimension p first) (reduced_dimension p second mark) i j }
{}
