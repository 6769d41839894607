//! Laws of the definitions: each is the contract of a function that does nothing, proved with the
//! crate.

ghost use Rattle.std.specs.Prelude.{◌≡◌, ◌≢◌, ℕ, ◌*◌, ◌≤◌, ℤ, pos, ◌-ℤ◌, length, IsTrue};
ghost use Rattle.kh_types.specs.declared.limits.TheConstants.{CROSSINGS, EXPONENT};
ghost use Rattle.kh_types.specs.Code.{Code};
ghost use Rattle.kh_types.specs.Acceptance.{accepted};
ghost use Rattle.kh_types.specs.Table.{IsWithin};
ghost use Rattle.kh_types.specs.StateSum.{circle_coefficient, state_sum, polynomial_text};
ghost use Rattle.circle_smoothing.specs.Binomials.{binomial};
ghost use Rattle.jones_sum.specs.Coefficients.{coefficients_of, coefficient_in};

/// The coefficients of (q + q^-1)^k at the exponents -k, -k + 2 and so on are binomial
/// coefficients: in how many ways circles can be chosen of k, to give q where the others give q^-1.
/// Those of all other exponents are 0.
pub fn circles_give_binomial_coefficients()
    ensures ways { (k chosen : ℕ)
        → circle_coefficient k (pos (2 * chosen) -ℤ pos k) ≡ binomial k chosen }
    ensures none { (k : ℕ) (exponent : ℤ)
        → ((chosen : ℕ) → chosen ≤ k → exponent ≢ pos (2 * chosen) -ℤ pos k)
        → circle_coefficient k exponent ≡ 0 }
{}

/// The state sum of an accepted code within the limits has no exponents but those of a `Laurent`.
pub fn state_sums_are_within_the_exponents()
    ensures { (code : Code) (exponent : ℤ) → IsTrue (accepted code)
        → length code.crossings ≤ CROSSINGS → ¬ IsWithin EXPONENT exponent
        → state_sum code exponent ≡ pos 0 }
{}

/// The list of a polynomial's coefficients tells each of them within the exponents, and the Jones
/// line, which is the same of two polynomials that agree there.
pub fn coefficients_tell_the_polynomial()
    ensures value { (polynomial : ℤ → ℤ) (exponent : ℤ) → IsWithin EXPONENT exponent
        → coefficient_in (coefficients_of polynomial) exponent ≡ polynomial exponent }
    ensures same_text { (one other : ℤ → ℤ)
        → ((exponent : ℤ) → IsWithin EXPONENT exponent → one exponent ≡ other exponent)
        → polynomial_text one ≡ polynomial_text other }
    ensures text { (polynomial : ℤ → ℤ)
        → polynomial_text (coefficient_in (coefficients_of polynomial)) ≡ polynomial_text polynomial }
{}
