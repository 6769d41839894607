//! What a scan holds: how far it has come, the objects there, and the maps between them.

ghost use Rattle.std.specs.Prelude.{◌≡◌, ◌<◌, [], length, slice_index_or};
ghost use Rattle.tangle_scan.specs.Additions.{IsNextFront};
ghost use Rattle.tangle_scan.specs.Held.{IsFront};

use crossing_maps::site::next_arcs;
use kh_types::{Crossing, Diagram};
use tangle_maps::seam::Arcs;
use tangle_maps::{Pairing, Terms};

/// A diagram, how many of its crossings are done, in their order, and the arcs that are open after
/// these, ascending.
#[derive(Drop)]
pub struct Front {
    pub diagram: Diagram,
    pub done: u8,
    pub opened: Arcs,
}

impl Front {
    /// The crossing that comes after those that are done.
    pub fn crossing(&self) -> &Crossing
        requires { self.now.done < length self.now.diagram.crossings }
        ensures { result.now ≡ slice_index_or self.now.diagram.crossings self.now.done [] }
    {
        &self.diagram.crossings()[usize::from(self.done)]
    }

    /// The front after one crossing more.
    pub fn next(&self) -> Front
        requires front { IsFront self.now }
        requires more { self.now.done < length self.now.diagram.crossings }
        ensures { IsNextFront self.now result }
    {
        let opened = next_arcs(&self.opened, self.crossing());
        Front {
            diagram: self.diagram,
            done: self.done + 1,
            opened,
        }
    }
}

/// A pairing of the arcs that are open, its homological degree r and its shift q of the quantum
/// degree, the smoothing of the crossing that was added last, 0 before any, and whether it is still
/// there. Source: Bar-Natan 2007.
#[derive(Clone, Copy, Debug, PartialEq, Eq)]
pub struct Object {
    pub pairing: Pairing,
    pub degree: u8,
    pub shift: i16,
    pub smoothing: u8,
    pub is_alive: bool,
}

/// A map to the object at a place, from 0: a reduced sum of dotted discs.
#[derive(Drop)]
pub struct Entry {
    pub head: usize,
    pub terms: Terms,
}

/// The maps out of an object, in any order: one to each head at most.
pub type Column = Vec<Entry>;

/// The objects of a scan after some crossings, at places from 0, and the maps out of each.
#[derive(Drop)]
pub struct TangleComplex {
    pub objects: Vec<Object>,
    pub columns: Vec<Column>,
}
