//! The two sides of a differential: its columns and its rows.

ghost use Rattle.std.specs.Prelude.{◌≡◌};
ghost use Rattle.cancel_step.specs.Sides.{other_side, place_on};

use sparse_block::Pivot;

/// A side of a differential.
#[derive(Clone, Copy)]
pub(crate) enum Side {
    /// The columns.
    Columns,
    /// The rows.
    Rows,
}

/// The side across.
pub(crate) fn other_side(side: Side) -> Side
    ensures { result ≡ other_side side }
{
    match side {
        Side::Columns => Side::Rows,
        Side::Rows => Side::Columns,
    }
}

/// The place of a pivot on a side: its column or its row.
pub(crate) fn place_on(side: Side, pivot: Pivot) -> u32
    ensures { result ≡ place_on side pivot }
{
    match side {
        Side::Columns => pivot.column,
        Side::Rows => pivot.row,
    }
}
