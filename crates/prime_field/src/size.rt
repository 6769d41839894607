//! The numbers of elements of the four fields.

ghost use Rattle.std.specs.Prelude.{◌≡◌};
ghost use Rattle.prime_field.specs.Sizes.{field_size};

use std::marker::Model;

/// How many elements one of the four fields has.
#[derive(Clone, Copy, Debug, PartialEq, Eq)]
pub enum Elements {
    /// Those of `F2`.
    Two,
    /// Those of `F3`.
    Three,
    /// Those of `F5`.
    Five,
    /// Those of `F7`.
    Seven,
}

/// The number of elements of one of the four fields: 2, 3, 5 or 7. Contracts see the number.
#[derive(Clone, Copy, Debug, PartialEq, Eq)]
pub struct FieldSize {
    elements: Elements,
}

impl Model for FieldSize {
    ghost use Rattle.std.specs.Prelude.{ℕ};
    ghost use Rattle.std.proofs.Common.{ap};

    ghost Value = { ℕ };

    ghost use Rattle.prime_field.specs.Sizes.{field_size, elements_for, elements_for-field_size};

    ghost view = { λ size. field_size size.elements };

    ghost inverse = { λ number. record { elements = elements_for number } };

    ghost inverse_ok = { λ size _.
        ap (λ word. record { elements = word }) (elements_for-field_size size.elements) };
}

impl FieldSize {
    /// Two elements.
    pub const TWO: FieldSize = FieldSize {
        elements: Elements::Two,
    };

    /// Three elements.
    pub const THREE: FieldSize = FieldSize {
        elements: Elements::Three,
    };

    /// Five elements.
    pub const FIVE: FieldSize = FieldSize {
        elements: Elements::Five,
    };

    /// Seven elements.
    pub const SEVEN: FieldSize = FieldSize {
        elements: Elements::Seven,
    };

    /// Which of the four it is.
    pub fn elements(self) -> Elements
        ensures { field_size result ≡ self }
    {
        self.elements
    }
}

/// The one choice of a field: `over_field!(size, call::<More>(first, second))` is
/// `call::<F2, More>(first, second)` where the size is 2, and so on.
#[macro_export]
macro_rules! over_field {
    ($size:expr, $call:ident::<$($more:ty),*>($($argument:expr),*)) => {
        match $size.elements() {
            $crate::Elements::Two => $call::<$crate::F2 $(, $more)*>($($argument),*),
            $crate::Elements::Three => $call::<$crate::F3 $(, $more)*>($($argument),*),
            $crate::Elements::Five => $call::<$crate::F5 $(, $more)*>($($argument),*),
            $crate::Elements::Seven => $call::<$crate::F7 $(, $more)*>($($argument),*),
        }
    };
    ($size:expr, $call:ident($($argument:expr),*)) => {
        $crate::over_field!($size, $call::<>($($argument),*))
    };
}
