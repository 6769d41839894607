//! Codes of diagrams as they are read, before anything is asked of them.

use crate::limits::CROSSINGS;
use arrayvec::ArrayVec;
use std::marker::Model;

/// The arcs that meet at a crossing, counterclockwise from the incoming under arc; their places are
/// the slots 0 to 3. Source: Knot Atlas, "Planar Diagrams", `X[i, j, k, l]`.
#[derive(Clone, Copy, Debug, PartialEq, Eq, Default)]
pub struct Crossing(pub [u8; 4]);

impl Model for Crossing {
    ghost use Rattle.std.specs.Prelude.{ℕ, List};

    ghost Value = { List ℕ };

    ghost view = { λ c. c.0 };

    ghost inverse = { λ arcs. record { 0 = arcs } };
}

/// A list of crossings, numbered from 1, and a number of crossingless loops. It may be no diagram's
/// code. Contracts see it as a `Code`. Source: Knot Atlas, "Planar Diagrams"; the loops are this
/// project's rule.
#[derive(Debug, Drop)]
pub struct RawCode {
    /// The crossings, in list order.
    pub crossings: ArrayVec<Crossing, CROSSINGS>,
    /// How many loops there are, which meet no crossing.
    pub loops: u8,
}

impl Model for RawCode {
    ghost use Rattle.kh_types.specs.Code.{Code};

    ghost Value = { Code };

    ghost use Rattle.kh_types.specs.RawCodes.{code_of_raw};

    ghost view = { code_of_raw };
}
