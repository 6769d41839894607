//! The blocks of the cube: they have all generators and the differentials between them, and are
//! complexes.

ghost use Rattle.std.specs.Prelude.{◌≡◌, ℕ, ◌<◌, ℤ, map, true, IsTrue};
ghost use Rattle.kh_types.specs.Acceptance.{accepted};
ghost use Rattle.kh_types.specs.Code.{Code};
ghost use Rattle.kh_types.specs.Complex.{IsComplex, degree_of, entry_in, entry_of, product_entry};
ghost use Rattle.kh_types.specs.Differential.{differential};
ghost use Rattle.kh_types.specs.Generators.{generators_at};
ghost use Rattle.kh_types.specs.History.{block};

/// At each degree, also outside of those that it lists, a block has a place, alive, for each
/// generator, and the entries of the differential out of them.
pub fn blocks_have_all_generators()
    ensures places { (p : ℕ) (code : Code) (j i : ℤ)
        → (degree_of (block p code j) i).alive ≡ map (λ generator. true) (generators_at code i j) }
    ensures entries { (p : ℕ) (code : Code) (j i : ℤ) (row column : ℕ)
        → entry_of (block p code j) i row column ≡ entry_in (differential p code i j) row column }
{}

/// Neighbouring matrices of a block of an accepted code have the product 0.
pub fn blocks_square_to_zero()
    ensures { (p : ℕ) (code : Code) (j i : ℤ) (row column : ℕ) → 0 < p → IsTrue (accepted code)
        → product_entry p (block p code j) i row column ≡ 0 }
{}

/// So each block of an accepted code is a complex, modulo any number above 1.
pub fn blocks_are_complexes()
    ensures { (p : ℕ) (code : Code) (j : ℤ) → 1 < p → IsTrue (accepted code)
        → IsComplex p (block p code j) }
{}
