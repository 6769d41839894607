//! The field of two elements.

ghost use Rattle.std.specs.Prelude.{◌<◌, refl};
ghost use Rattle.std.proofs.Common.{inl};
ghost use Rattle.prime_field.specs.SmallFields.{field-two, residue-same};

use crate::PrimeField;

/// An element of the field of two elements. Source: any textbook of algebra.
#[derive(Clone, Copy, Debug, PartialEq, Eq)]
pub struct F2 {
    value: u8,
    ghost below: { value < 2 },
}

impl PrimeField for F2 {
    ghost P = { 2 };

    ghost value_of = { λ x. x.value };

    const P: u8 = 2;

    fn of(value: u8) -> Self {
        F2 { value }
    }

    fn value(self) -> u8 {
        self.value
    }

    fn add(self, other: Self) -> Self {
        F2 {
            value: (self.value + other.value) % 2,
        }
    }

    fn neg(self) -> Self {
        F2 {
            value: (2 - self.value) % 2,
        }
    }

    fn mul(self, other: Self) -> Self {
        F2 {
            value: self.value * other.value % 2,
        }
    }

    fn inverse(self) -> Self {
        self
    }

    ghost prime = { inl refl };

    ghost field = { field-two };

    ghost below = { λ x. x.below };

    ghost same = { λ x y alike. residue-same 2 (λ value below. record { value = value; below = below })
        x.value y.value x.below y.below alike };

    ghost equal = { λ x y. refl };
}
