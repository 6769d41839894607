//! What no clause says: that each call is reached, at each field and through the bound. The values
//! are those of printed tables.

ghost use Rattle.std.specs.Prelude.{◌≢◌, ◌<◌};

use crate::{F2, F3, F5, F7, PrimeField, difference, quotient};

fn inverse_of<F: PrimeField>(value: u8) -> u8
    requires below { value < F.P }
    requires other { value ≢ 0 }
{
    F::of(value).inverse().value()
}

fn values_of<F: PrimeField>(left: u8, right: u8) -> [u8; 5]
    requires left { left < F.P }
    requires right { right < F.P }
    requires other { right ≢ 0 }
{
    let (left, right) = (F::of(left), F::of(right));
    [
        left.add(right).value(),
        right.neg().value(),
        left.mul(right).value(),
        difference(left, right).value(),
        quotient(left, right).value(),
    ]
}

#[test]
fn inverses_are_those_of_the_tables(rt: HostRuntime) {
    for (found, expected) in [
        (inverse_of::<F2>(1), 1),
        (inverse_of::<F3>(2), 2),
        (inverse_of::<F5>(2), 3),
        (inverse_of::<F5>(3), 2),
        (inverse_of::<F5>(4), 4),
        (inverse_of::<F7>(2), 4),
        (inverse_of::<F7>(3), 5),
        (inverse_of::<F7>(6), 6),
    ] {
        assert_eq!(rt; found, expected);
    }
}

/// The sum, the negative of the second, the product, the difference and the quotient.
#[test]
fn operations_are_those_of_the_tables(rt: HostRuntime) {
    for (found, expected) in [
        (values_of::<F2>(1, 1), [0, 1, 1, 0, 1]),
        (values_of::<F3>(1, 2), [0, 1, 2, 2, 2]),
        (values_of::<F5>(3, 4), [2, 1, 2, 4, 2]),
        (values_of::<F7>(3, 5), [1, 2, 1, 5, 2]),
    ] {
        assert_eq!(rt; found, expected);
    }
}
