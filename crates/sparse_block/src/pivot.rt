//! A pivot, by its degree, its column and its row.

use std::marker::Model;

/// An entry other than zero that a cancellation takes out of a complex.
#[derive(Clone, Copy, Debug, PartialEq, Eq)]
pub struct Pivot {
    /// The degree of its column. Its row is a place of the next.
    pub degree: i16,
    /// Its column, a place of that degree, from 0.
    pub column: u32,
    /// Its row, a place of the next degree, from 0.
    pub row: u32,
}

impl Model for Pivot {
    ghost use Rattle.kh_types.specs.Complex.{Pivot as Plain, pivot_at};

    ghost Value = { Plain };

    ghost view = { λ pivot. pivot_at pivot.degree pivot.column pivot.row };

    ghost inverse = { λ pivot. record {
      degree = pivot.degree;
      column = pivot.column;
      row = pivot.row;
    } };
}
