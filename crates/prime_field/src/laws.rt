//! The laws of a field, for every number of elements and for every field.

ghost use Rattle.std.specs.Prelude.{◌≡◌, ℕ, ◌<◌, nat_eq};
ghost use Rattle.prime_field.specs.Residues.{IsField, IsSmallPrime};

use crate::PrimeField;

/// The numbers modulo each of the four primes are a field. Source: any textbook of algebra.
pub fn small_primes_give_fields()
    ensures { (p : ℕ) → IsSmallPrime p → IsField p }
{}

/// The laws that every field has. It does nothing: a generic function calls it, and its proof then
/// has them at hand. Source: any textbook of algebra.
pub fn element_laws<F: PrimeField>()
    ensures prime { IsSmallPrime F.P }
    ensures field { IsField F.P }
    ensures below { (x : F) → F.value_of x < F.P }
    ensures same { (x y : F) → F.value_of x ≡ F.value_of y → x ≡ y }
    ensures equal { (x y : F) → F.eq x y ≡ nat_eq (F.value_of x) (F.value_of y) }
{}
