//! The field of seven elements.

ghost use Rattle.std.specs.Prelude.{◌<◌, refl};
ghost use Rattle.std.proofs.Common.{inr};
ghost use Rattle.prime_field.specs.SmallFields.{field-seven, residue-same};

use crate::PrimeField;

/// An element of the field of seven elements. Source: any textbook of algebra.
#[derive(Clone, Copy, Debug, PartialEq, Eq)]
pub struct F7 {
    value: u8,
    ghost below: { value < 7 },
}

/// The inverse of each value; 0 has none.
const INVERSES: [u8; 7] = [0, 1, 4, 5, 2, 3, 6];

impl PrimeField for F7 {
    ghost P = { 7 };

    ghost value_of = { λ x. x.value };

    const P: u8 = 7;

    fn of(value: u8) -> Self {
        F7 { value }
    }

    fn value(self) -> u8 {
        self.value
    }

    fn add(self, other: Self) -> Self {
        F7 {
            value: (self.value + other.value) % 7,
        }
    }

    fn neg(self) -> Self {
        F7 {
            value: (7 - self.value) % 7,
        }
    }

    fn mul(self, other: Self) -> Self {
        F7 {
            value: self.value * other.value % 7,
        }
    }

    fn inverse(self) -> Self {
        F7 {
            value: INVERSES[usize::from(self.value)],
        }
    }

    ghost prime = { inr (inr (inr refl)) };

    ghost field = { field-seven };

    ghost below = { λ x. x.below };

    ghost same = { λ x y alike. residue-same 7 (λ value below. record { value = value; below = below })
        x.value y.value x.below y.below alike };

    ghost equal = { λ x y. refl };
}
