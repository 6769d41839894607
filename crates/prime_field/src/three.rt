//! The field of three elements.

ghost use Rattle.std.specs.Prelude.{◌<◌, refl};
ghost use Rattle.std.proofs.Common.{inl, inr};
ghost use Rattle.prime_field.specs.SmallFields.{field-three, residue-same};

use crate::PrimeField;

/// An element of the field of three elements. Source: any textbook of algebra.
#[derive(Clone, Copy, Debug, PartialEq, Eq)]
pub struct F3 {
    value: u8,
    ghost below: { value < 3 },
}

impl PrimeField for F3 {
    ghost P = { 3 };

    ghost value_of = { λ x. x.value };

    const P: u8 = 3;

    fn of(value: u8) -> Self {
        F3 { value }
    }

    fn value(self) -> u8 {
        self.value
    }

    fn add(self, other: Self) -> Self {
        F3 {
            value: (self.value + other.value) % 3,
        }
    }

    fn neg(self) -> Self {
        F3 {
            value: (3 - self.value) % 3,
        }
    }

    fn mul(self, other: Self) -> Self {
        F3 {
            value: self.value * other.value % 3,
        }
    }

    fn inverse(self) -> Self {
        self
    }

    ghost prime = { inr (inl refl) };

    ghost field = { field-three };

    ghost below = { λ x. x.below };

    ghost same = { λ x y alike. residue-same 3 (λ value below. record { value = value; below = below })
        x.value y.value x.below y.below alike };

    ghost equal = { λ x y. refl };
}
