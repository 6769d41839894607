//! What slices join.

use arrayvec::ArrayVec;
use kh_types::{ARCS, Dart, dart_at};
use std::marker::Model;

/// The darts that slices join, and the loops that they close. Contracts see it as `JoinedDarts`.
#[derive(Debug, Drop)]
pub struct Joins {
    /// Each arc as its two darts, the lesser first, by crossing, then slot; the pairs ascend by
    /// their first darts.
    pub pairs: ArrayVec<Pair, ARCS>,
    /// How many loops there are.
    pub loops: u8,
}

impl Model for Joins {
    ghost use Rattle.morse_drawing.specs.Joins.{JoinedDarts};

    ghost Value = { JoinedDarts };

    ghost use Rattle.morse_drawing.specs.Seen.{joined_darts};

    ghost view = { joined_darts };
}

/// The two darts of an arc. Contracts see it as the list of them.
#[derive(Clone, Copy, Debug, PartialEq, Eq)]
pub struct Pair(pub [Dart; 2]);

impl Model for Pair {
    ghost use Rattle.std.specs.Prelude.{List};
    ghost use Rattle.kh_types.specs.declared.dart.Dart.{Dart};

    ghost Value = { List Dart };

    ghost view = { λ pair. pair.0 };

    ghost inverse = { λ darts. record { 0 = darts } };
}

impl Default for Pair {
    fn default() -> Pair {
        Pair([dart_at(0), dart_at(0)])
    }
}
