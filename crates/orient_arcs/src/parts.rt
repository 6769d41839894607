//! Crossings over arc names, with directions.

use arrayvec::ArrayVec;
use kh_types::{CROSSINGS, Crossing};
use std::marker::Model;

/// Crossings over arc names, each counterclockwise from the incoming under arc, with the direction
/// of each, and a number of loops: a positive crossing's over strand comes in at slot 3, a negative
/// one's at slot 1.
#[derive(Debug, Drop)]
pub struct Parts {
    pub crossings: ArrayVec<Crossing, CROSSINGS>,
    pub positive: ArrayVec<bool, CROSSINGS>,
    pub loops: u8,
}

impl Model for Parts {
    ghost use Rattle.code_passes.specs.Parts.{Parts};

    ghost Value = { Parts };

    ghost use Rattle.orient_arcs.specs.RawParts.{parts_of_raw};

    ghost view = { parts_of_raw };
}
