//! The degrees of a complex from the greatest down.

ghost use Rattle.std.specs.Prelude.{◌≡◌, ℕ, ◌<◌, pos, ◌+ℤ◌, ◌-ℤ◌, length};
ghost use Rattle.sparse_block.specs.Complexes.{high_of};

use prime_field::PrimeField;
use sparse_block::{Complex, complex_laws};

/// How many degrees there are.
pub(crate) fn degree_count<F: PrimeField>(complex: &Complex<F>) -> u16
    ensures { result ≡ length complex.now.complex.degrees }
{
    complex_laws(complex);
    (i32::from(complex.high()) - i32::from(complex.low()) + 1) as u16
}

/// The degree that has this number, where the greatest is number 0.
pub(crate) fn degree_down<F: PrimeField>(complex: &Complex<F>, number: u16) -> i16
    requires { number < length complex.now.complex.degrees }
    ensures { result ≡ high_of complex.now.complex -ℤ pos number }
{
    complex_laws(complex);
    let above = degree_count(complex) - 1 - number;
    (i32::from(complex.low()) + i32::from(above)) as i16
}
