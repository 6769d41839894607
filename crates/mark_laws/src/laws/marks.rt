//! Homology over two elements and reduced homology.

ghost use Rattle.std.specs.Prelude.{◌≡◌, ℕ, ◌+◌, ℤ, pos, neg_ℤ, ◌+ℤ◌, ◌-ℤ◌, IsTrue};
ghost use Rattle.kh_types.specs.Acceptance.{accepted};
ghost use Rattle.kh_types.specs.CircleNumbers.{IsName};
ghost use Rattle.kh_types.specs.Code.{Code};
ghost use Rattle.kh_types.specs.Table.{dimension};
ghost use Rattle.kh_types.specs.WorkedCodes.{trefoil};
ghost use Rattle.reduced_cube.specs.Reduced.{reduced_dimension, reduced_table};

/// Over two elements homology is (q + q^-1) times reduced homology, with whatever mark
/// (Shumakovitch, "Torsion of Khovanov homology", 2004).
pub fn homology_is_reduced_homology_twice()
    ensures { (code : Code) (mark : ℕ) (i j : ℤ) → IsTrue (accepted code) → IsName code mark
        → dimension 2 code i j
        ≡ reduced_dimension 2 code mark i (j -ℤ pos 1)
        + reduced_dimension 2 code mark i (j +ℤ pos 1) }
{}

/// So over two elements reduced homology is the same with each mark, and so is its table. Over
/// three elements it is not (`marks_matter`).
pub fn marks_do_not_matter_over_two_elements()
    ensures dimensions { (code : Code) (first second : ℕ) → IsTrue (accepted code)
        → IsName code first → IsName code second → (i j : ℤ)
        → reduced_dimension 2 code first i j ≡ reduced_dimension 2 code second i j }
    ensures tables { (code : Code) (first second : ℕ) → IsTrue (accepted code) → IsName code first
        → IsName code second → reduced_table 2 code first ≡ reduced_table 2 code second }
{}

/// Beside a loop the trefoil has the same dimension over two elements where an arc of it is marked
/// and where the loop is.
pub fn known_marks_over_two_elements()
    ensures arc { reduced_dimension 2 (record trefoil { loops = 1 }) 1
        (neg_ℤ (pos 3)) (neg_ℤ (pos 7)) ≡ 1 }
    ensures loop_marked { reduced_dimension 2 (record trefoil { loops = 1 }) 7
        (neg_ℤ (pos 3)) (neg_ℤ (pos 7)) ≡ 1 }
{}
