//! The deformed coefficients: with h = 0 they are the plain ones, they square to zero, and they
//! keep the quantum degree or raise it by 2.

ghost use Rattle.std.specs.Prelude.{◌≡◌, ◌≢◌, ℕ, ◌*◌, ◌%◌, ◌<◌, IsTrue};
ghost use Rattle.std.specs.List.{sum_by};
ghost use Rattle.kh_types.specs.Acceptance.{accepted};
ghost use Rattle.kh_types.specs.Code.{Code};
ghost use Rattle.kh_types.specs.Differential.{coefficient};
ghost use Rattle.kh_types.specs.Generators.{Generator, generators, quantum_degree};
ghost use Rattle.kh_types.specs.Residues.{Same};
ghost use Rattle.square_laws.specs.Deformed.{deformed_coefficient};
ghost use Rattle.square_laws.specs.RaisedDegrees.{IsRaised};

/// Deformed coefficients are below p, and with h = 0 they are the plain ones.
pub fn deformed_coefficients_at_zero_are_plain()
    ensures below { (p h : ℕ) (code : Code) (tail head : Generator) → 0 < p
        → deformed_coefficient p h code tail head < p }
    ensures plain { (p : ℕ) (code : Code) (tail head : Generator) → 1 < p
        → deformed_coefficient p 0 code tail head ≡ coefficient p code tail head }
{}

/// They depend on h modulo p alone.
pub fn deformed_coefficients_depend_on_residues()
    ensures { (p h g : ℕ) (code : Code) (tail head : Generator) → Same p h g
        → deformed_coefficient p h code tail head ≡ deformed_coefficient p g code tail head }
{}

/// The products of two deformed coefficients from one generator to another, summed over all
/// generators between, are 0 modulo p, whatever h is.
pub fn deformed_coefficients_square_to_zero()
    ensures { (p h : ℕ) (code : Code) (tail head : Generator) → 0 < p → IsTrue (accepted code)
        → sum_by (λ middle. deformed_coefficient p h code middle head
        * deformed_coefficient p h code tail middle) (generators code) % p ≡ 0 }
{}

/// A deformed coefficient other than 0 leads to the next homological degree, and keeps the quantum
/// degree or raises it by 2. Those that keep it are the plain ones.
pub fn deformed_coefficients_are_filtered()
    ensures raised { (p h : ℕ) (code : Code) (tail head : Generator) → IsTrue (accepted code)
        → deformed_coefficient p h code tail head ≢ 0 → IsRaised code tail head }
    ensures equal { (p h : ℕ) (code : Code) (tail head : Generator) → 1 < p
        → IsTrue (accepted code) → quantum_degree code head ≡ quantum_degree code tail
        → deformed_coefficient p h code tail head ≡ coefficient p code tail head }
{}
