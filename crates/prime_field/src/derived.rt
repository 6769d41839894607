//! What every field has besides: differences and quotients, from the laws of the trait alone.

ghost use Rattle.std.specs.Prelude.{◌≡◌, ◌≢◌};
ghost use Rattle.prime_field.specs.Residues.{inverse_mod, negative_mod, product_mod, sum_mod};

use crate::PrimeField;
use crate::laws::element_laws;

/// The difference of two elements: added to the second it gives the first. Source: any textbook of
/// algebra.
pub fn difference<F: PrimeField>(left: F, right: F) -> F
    ensures value { F.value_of result
        ≡ sum_mod F.P (F.value_of left) (negative_mod F.P (F.value_of right)) }
    ensures back { sum_mod F.P (F.value_of result) (F.value_of right) ≡ F.value_of left }
{
    element_laws::<F>();
    left.add(right.neg())
}

/// The quotient of two elements: times the second it gives the first. The second is not zero.
/// Source: any textbook of algebra.
pub fn quotient<F: PrimeField>(dividend: F, divisor: F) -> F
    requires { F.value_of divisor ≢ 0 }
    ensures value { F.value_of result
        ≡ product_mod F.P (F.value_of dividend) (inverse_mod F.P (F.value_of divisor)) }
    ensures back { product_mod F.P (F.value_of result) (F.value_of divisor) ≡ F.value_of dividend }
{
    element_laws::<F>();
    dividend.mul(divisor.inverse())
}
