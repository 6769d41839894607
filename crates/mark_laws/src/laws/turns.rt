//! Turns of one label v- to v+. Modulo 2 the sum of all commutes with the differential, and taken
//! twice it is 0.

ghost use Rattle.std.specs.Prelude.{ℕ, ◌*◌, IsTrue};
ghost use Rattle.std.specs.List.{Contains, sum_by};
ghost use Rattle.kh_types.specs.Acceptance.{accepted};
ghost use Rattle.kh_types.specs.Code.{Code};
ghost use Rattle.kh_types.specs.Differential.{coefficient};
ghost use Rattle.kh_types.specs.Generators.{Generator, generators};
ghost use Rattle.kh_types.specs.Residues.{Same};
ghost use Rattle.mark_laws.specs.Turns.{turn_count};

/// The sum of all turns commutes with the differential modulo 2 (Shumakovitch 2004).
pub fn turns_commute_with_the_differential()
    ensures { (code : Code) (tail head : Generator) → IsTrue (accepted code)
        → Contains (generators code) tail → Contains (generators code) head
        → Same 2 (sum_by (λ middle. turn_count code tail middle * coefficient 2 code middle head)
        (generators code))
        (sum_by (λ middle. coefficient 2 code tail middle * turn_count code middle head)
        (generators code)) }
{}

/// Taken twice it is 0 modulo 2.
pub fn turns_square_to_zero()
    ensures { (code : Code) (first last : Generator) → IsTrue (accepted code)
        → Contains (generators code) first
        → Same 2 (sum_by (λ middle. turn_count code first middle * turn_count code middle last)
        (generators code)) 0 }
{}
