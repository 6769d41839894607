//! The trait of a field of prime size.

ghost use Rattle.std.specs.Prelude.{◌≡◌, ◌≢◌, ℕ, ◌<◌, nat_eq};
ghost use Rattle.prime_field.specs.Residues.{IsField, IsSmallPrime};
ghost use Rattle.prime_field.specs.Residues.{negative_mod, product_mod, sum_mod};

/// A field of `P` elements, each known by its value, a number below `P`. `P` is 2, 3, 5 or 7.
/// Source: any textbook of algebra. That `P` is one of these is this project's rule.
pub trait PrimeField: Copy + Eq {
    /// The number of elements.
    ghost P: { ℕ };

    /// The value of an element.
    ghost value_of: { Self → ℕ };

    /// The number of elements.
    const P: u8;

    /// The element that has this value.
    fn of(value: u8) -> Self
        requires { value < P }
        ensures { value_of result ≡ value };

    /// The value, a number below `P`.
    fn value(self) -> u8
        ensures value { result ≡ value_of self }
        ensures below { result < P };

    /// The sum: its value is the sum of the values modulo `P`.
    fn add(self, other: Self) -> Self
        ensures { value_of result ≡ sum_mod P (value_of self) (value_of other) };

    /// The negative: its value is the negative of the value modulo `P`.
    fn neg(self) -> Self
        ensures { value_of result ≡ negative_mod P (value_of self) };

    /// The product: its value is the product of the values modulo `P`.
    fn mul(self, other: Self) -> Self
        ensures { value_of result ≡ product_mod P (value_of self) (value_of other) };

    /// The inverse: with the element it has the product 1. The element is not zero.
    fn inverse(self) -> Self
        requires { value_of self ≢ 0 }
        ensures { product_mod P (value_of self) (value_of result) ≡ 1 };

    /// The number of elements is one of the four primes.
    ghost prime: { IsSmallPrime P };

    /// The numbers modulo `P` are a field.
    ghost field: { IsField P };

    /// Each value is below the number of elements.
    ghost below: { (x : Self) → value_of x < P };

    /// Two elements with the same value are the same element.
    ghost same: { (x y : Self) → value_of x ≡ value_of y → x ≡ y };

    /// `==` compares the values.
    ghost equal: { (x y : Self) → Self.eq x y ≡ nat_eq (value_of x) (value_of y) };
}
