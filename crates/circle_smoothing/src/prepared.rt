//! A diagram prepared for walks along its circles.

ghost use Rattle.std.specs.Prelude.{◌≡◌, ◌^◌, ◌<◌, ◌≤◌, length, IsTrue};
ghost use Rattle.kh_types.specs.Acceptance.{accepted};
ghost use Rattle.kh_types.specs.Bits.{bit};
ghost use Rattle.kh_types.specs.Code.{IsArc, IsCrossing, place_of};
ghost use Rattle.kh_types.specs.Circles.{circle_count};
ghost use Rattle.kh_types.specs.Darts.{dart_count, partner_at};
ghost use Rattle.kh_types.specs.declared.limits.TheConstants.{CIRCLES, CROSSINGS};
ghost use Rattle.circle_smoothing.specs.Edges.{IsEdge};
ghost use Rattle.kh_types.specs.Edges.{state_behind};
ghost use Rattle.kh_types.specs.CircleSteps.{arc_at};

use crate::change::Edge;
use crate::numbered::Circles;
use crate::numbering::{count_of, numbers_of};
use crate::tables::{arcs_of, partners_of, starts_of};
use crate::walk::circles_of;
use arrayvec::ArrayVec;
use kh_types::{CLASS_MEMBERS, Diagram};
use std::marker::Model;

/// A diagram with what walks along its circles look up; it is made once for all states. Contracts
/// see it as the diagram's `Code`.
#[derive(Debug, Drop)]
pub struct Smoothings {
    diagram: Diagram,
    // The arc of each dart, and the other dart of that arc, by places.
    arcs: ArrayVec<u8, CLASS_MEMBERS>,
    partners: ArrayVec<u8, CLASS_MEMBERS>,
    // The place of a dart on each arc.
    starts: ArrayVec<u8, CLASS_MEMBERS>,
}

impl Model for Smoothings {
    ghost use Rattle.kh_types.specs.Code.{Code};

    ghost Value = { Code };

    ghost use Rattle.circle_smoothing.specs.Prepared.{code_of_smoothings, ArePrepared};

    ghost view = { code_of_smoothings };

    ghost invariant = { ArePrepared };
}

impl Smoothings {
    /// The diagram, prepared.
    pub fn new(diagram: &Diagram) -> Smoothings
        ensures { result ≡ diagram.now }
    {
        let arcs = arcs_of(diagram);
        let starts = starts_of(diagram, &arcs);
        Smoothings {
            diagram: *diagram,
            arcs,
            partners: partners_of(diagram),
            starts,
        }
    }

    /// The circles of a state.
    pub fn circles(&self, state: u32) -> Circles
        requires { state < 2 ^ length self.now.crossings }
        ensures code { result.code ≡ self.now }
        ensures state { result.state ≡ state }
    {
        let circles = circles_of(self, state);
        Circles {
            diagram: self.diagram,
            state,
            numbers: numbers_of(&circles),
            count: count_of(&circles),
        }
    }

    /// The number of circles of a state.
    pub fn count(&self, state: u32) -> u8
        requires { state < 2 ^ length self.now.crossings }
        ensures count { result ≡ circle_count self.now state }
        ensures within { result ≤ CIRCLES }
    {
        count_of(&circles_of(self, state))
    }

    /// What the edge at a crossing does that starts in a state in which the crossing has its
    /// 0-smoothing.
    pub fn edge(&self, state: u32, crossing: u8) -> Edge
        requires state { state < 2 ^ length self.now.crossings }
        requires crossing { IsCrossing self.now.crossings crossing }
        requires smoothing { bit state (place_of crossing) ≡ 0 }
        ensures { IsEdge self.now state crossing result }
    {
        let behind = self.circles(self.state_behind(state, crossing));
        self.circles(state).edge(&behind, crossing)
    }

    /// The state behind an edge.
    fn state_behind(&self, state: u32, crossing: u8) -> u32
        requires state { state < 2 ^ length self.now.crossings }
        requires crossing { IsCrossing self.now.crossings crossing }
        requires smoothing { bit state (place_of crossing) ≡ 0 }
        ensures behind { result ≡ state_behind state crossing }
        ensures within { result < 2 ^ length self.now.crossings }
    {
        // (the size of the diagram, by its type)
        let _ = &self.diagram;
        state + (1 << (crossing - 1))
    }

    /// The diagram.
    pub(crate) fn diagram(&self) -> &Diagram
        ensures diagram { result.now ≡ self.now }
        ensures few { length self.now.crossings ≤ CROSSINGS }
        ensures accepted { IsTrue (accepted self.now) }
    {
        &self.diagram
    }

    /// The arc of the dart at a place.
    pub(crate) fn arc_at(&self, place: u8) -> u8
        requires { place < dart_count self.now.crossings }
        ensures arc { result ≡ arc_at self.now.crossings place }
        ensures within { IsArc self.now.crossings result }
    {
        self.arcs[place as usize]
    }

    /// The place of the other dart of the arc of the dart at a place.
    pub(crate) fn partner_at(&self, place: u8) -> u8
        requires { place < dart_count self.now.crossings }
        ensures place { result ≡ partner_at self.now.crossings place }
        ensures below { result < dart_count self.now.crossings }
    {
        self.partners[place as usize]
    }

    /// The place of a dart on an arc.
    pub(crate) fn start_of(&self, arc: u8) -> u8
        requires { IsArc self.now.crossings arc }
        ensures below { result < dart_count self.now.crossings }
        ensures on_arc { arc_at self.now.crossings result ≡ arc }
    {
        self.starts[arc as usize]
    }
}
