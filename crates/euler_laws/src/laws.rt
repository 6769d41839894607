//! The graded Euler characteristic of a homology table.

ghost use Rattle.std.specs.Prelude.{◌≡◌, ℕ, ◌≤◌, ℤ, length, IsTrue};
ghost use Rattle.kh_types.specs.Acceptance.{accepted};
ghost use Rattle.kh_types.specs.Code.{Code};
ghost use Rattle.kh_types.specs.StateSum.{euler, polynomial_text, state_sum};
ghost use Rattle.kh_types.specs.Table.{table};
ghost use Rattle.kh_types.specs.declared.limits.TheConstants.{CROSSINGS};
ghost use Rattle.prime_field.specs.Residues.{IsField};

/// The graded Euler characteristic of a table is the state sum: the same coefficient at every
/// exponent, and so the same Jones line (Bar-Natan 2002, section 3).
pub fn euler_characteristic_is_the_state_sum()
    ensures coefficient { (p : ℕ) (code : Code) (exponent : ℤ) → IsField p → IsTrue (accepted code)
        → length code.crossings ≤ CROSSINGS
        → euler (table p code) exponent ≡ state_sum code exponent }
    ensures line { (p : ℕ) (code : Code) → IsField p → IsTrue (accepted code)
        → length code.crossings ≤ CROSSINGS
        → polynomial_text (euler (table p code)) ≡ polynomial_text (state_sum code) }
{}
