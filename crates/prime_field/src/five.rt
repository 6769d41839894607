//! The field of five elements.

ghost use Rattle.std.specs.Prelude.{◌<◌, refl};
ghost use Rattle.std.proofs.Common.{inl, inr};
ghost use Rattle.prime_field.specs.SmallFields.{field-five, residue-same};

use crate::PrimeField;

/// An element of the field of five elements. Source: any textbook of algebra.
#[derive(Clone, Copy, Debug, PartialEq, Eq)]
pub struct F5 {
    value: u8,
    ghost below: { value < 5 },
}

/// The inverse of each value; 0 has none.
const INVERSES: [u8; 5] = [0, 1, 3, 2, 4];

impl PrimeField for F5 {
    ghost P = { 5 };

    ghost value_of = { λ x. x.value };

    const P: u8 = 5;

    fn of(value: u8) -> Self {
        F5 { value }
    }

    fn value(self) -> u8 {
        self.value
    }

    fn add(self, other: Self) -> Self {
        F5 {
            value: (self.value + other.value) % 5,
        }
    }

    fn neg(self) -> Self {
        F5 {
            value: (5 - self.value) % 5,
        }
    }

    fn mul(self, other: Self) -> Self {
        F5 {
            value: self.value * other.value % 5,
        }
    }

    fn inverse(self) -> Self {
        F5 {
            value: INVERSES[usize::from(self.value)],
        }
    }

    ghost prime = { inr (inr (inl refl)) };

    ghost field = { field-five };

    ghost below = { λ x. x.below };

    ghost same = { λ x y alike. residue-same 5 (λ value below. record { value = value; below = below })
        x.value y.value x.below y.below alike };

    ghost equal = { λ x y. refl };
}
