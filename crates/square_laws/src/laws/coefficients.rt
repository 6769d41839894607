//! The coefficients of the differential: their degrees, and that they square to zero.

ghost use Rattle.std.specs.Prelude.{◌≡◌, ◌≢◌, ℕ, ◌*◌, ◌%◌, ◌<◌, IsTrue};
ghost use Rattle.std.specs.List.{sum_by};
ghost use Rattle.kh_types.specs.Acceptance.{accepted};
ghost use Rattle.kh_types.specs.Code.{Code};
ghost use Rattle.kh_types.specs.Differential.{coefficient};
ghost use Rattle.kh_types.specs.Generators.{Generator, generators};
ghost use Rattle.square_laws.specs.NextDegrees.{IsNext};

/// A coefficient other than 0 leads to the next homological degree, and keeps the quantum degree.
pub fn coefficients_lead_to_the_next_degree()
    ensures { (p : ℕ) (code : Code) (tail head : Generator) → IsTrue (accepted code)
        → coefficient p code tail head ≢ 0 → IsNext code tail head }
{}

/// The products of two coefficients from one generator to another, summed over all generators
/// between, are 0 modulo p.
pub fn coefficients_square_to_zero()
    ensures { (p : ℕ) (code : Code) (tail head : Generator) → 0 < p → IsTrue (accepted code)
        → sum_by (λ middle. coefficient p code middle head * coefficient p code tail middle)
        (generators code) % p ≡ 0 }
{}
