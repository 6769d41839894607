//! Products of complexes.

ghost use Rattle.std.specs.Prelude.{◌≡◌, ℕ, ℤ};
ghost use Rattle.std.specs.List.{Contains};
ghost use Rattle.kh_types.specs.Residues.{HasInverses};
ghost use Rattle.kh_types.specs.Table.{IsWithin};
ghost use Rattle.cell_laws.specs.Cells.{AreComplex, dimension_at};
ghost use Rattle.product_laws.specs.Products.{AreTurned, Factor, IsFactor, product_complex, product_dimension};

/// The product of two complexes is one.
pub fn products_are_complexes<A, B>()
    ensures { (p : ℕ) (first : Factor A) (second : Factor B) → HasInverses p → IsFactor p first
        → IsFactor p second → AreTurned p first second
        → AreComplex p (product_complex p first second) }
{}

/// Over a field the dimensions of a product are the products of the dimensions, summed over all
/// degrees (Kuenneth's formula).
pub fn products_multiply_dimensions<A, B>()
    ensures { (p n most : ℕ) (first : Factor A) (second : Factor B) → HasInverses p
        → IsFactor p first → IsFactor p second → AreTurned p first second
        → ((x : A) → Contains first.cells.list x → IsWithin n (first.cells.homological x))
        → ((x : A) → Contains first.cells.list x → IsWithin most (first.cells.quantum x))
        → (i j : ℤ) → dimension_at p (product_complex p first second) i j
        ≡ product_dimension n most (dimension_at p first.cells) (dimension_at p second.cells) i j }
{}
