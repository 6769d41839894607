//! Laurent polynomials.

ghost use Rattle.std.specs.Prelude.{◌≡◌, ◌<◌, pos, neg_ℤ, ◌+ℤ◌, ◌-ℤ◌, ◌≤ℤ◌};
ghost use Rattle.kh_types.specs.declared.limits.TheConstants.{EXPONENT};
ghost use Rattle.kh_types.specs.Table.{IsWithin};
ghost use Rattle.jones_sum.specs.Coefficients.{coefficient_in};
ghost use Rattle.jones_sum.specs.declared.laurent.TheConstants.{COEFFICIENTS};

use kh_types::EXPONENT;
use std::marker::Model;

/// The number of coefficients.
pub const COEFFICIENTS: usize = 2 * EXPONENT + 1;

/// A Laurent polynomial in q with integer coefficients, whose exponents are from -EXPONENT to
/// EXPONENT. Contracts see it as the list of its coefficients, ascending by exponent.
#[derive(Clone, Copy, Debug, PartialEq, Eq)]
pub struct Laurent {
    pub(crate) coefficients: [i128; COEFFICIENTS],
}

impl Model for Laurent {
    ghost use Rattle.std.specs.Prelude.{◌≡◌, ℤ, List, length};
    ghost use Rattle.jones_sum.specs.declared.laurent.TheConstants.{COEFFICIENTS};

    ghost Value = { List ℤ };

    ghost view = { λ polynomial. polynomial.coefficients };

    ghost invariant = { λ polynomial. length polynomial.coefficients ≡ COEFFICIENTS };

    ghost inverse = { λ coefficients. record { coefficients = coefficients } };
}

impl Laurent {
    /// The polynomial with these coefficients, ascending by exponent.
    pub fn of_coefficients(coefficients: [i128; COEFFICIENTS]) -> Laurent
        ensures { result ≡ coefficients }
    {
        Laurent { coefficients }
    }

    /// The coefficient of an exponent.
    #[tactic(auto, using(crate::proofs::CoefficientLemmas::exponents))]
    pub fn coefficient(&self, exponent: i16) -> i128
        requires { IsWithin EXPONENT exponent }
        ensures { result ≡ coefficient_in self.now exponent }
    {
        self.coefficients[place_of(exponent)]
    }
}

/// The place of an exponent's coefficient, counted from 0.
pub fn place_of(exponent: i16) -> usize
    requires low { neg_ℤ (pos EXPONENT) ≤ℤ exponent }
    requires high { exponent ≤ℤ pos EXPONENT }
    ensures place { exponent +ℤ pos EXPONENT ≡ pos result }
    ensures within { result < COEFFICIENTS }
{
    (exponent + EXPONENT as i16) as usize
}

/// The exponent of the coefficient at a place, counted from 0: the first is that of -EXPONENT.
pub fn exponent_at(place: usize) -> i16
    requires { place < COEFFICIENTS }
    ensures exponent { result ≡ pos place -ℤ pos EXPONENT }
    ensures within { IsWithin EXPONENT result }
{
    place as i16 - EXPONENT as i16
}
