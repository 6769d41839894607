//! The circles of a state.

ghost use Rattle.std.specs.Prelude.{◌≡◌, ◌<◌, ◌≤◌};
ghost use Rattle.kh_types.specs.Bits.{bit};
ghost use Rattle.kh_types.specs.Code.{IsArc, IsCrossing, place_of};
ghost use Rattle.kh_types.specs.Circles.{circle_count};
ghost use Rattle.kh_types.specs.declared.limits.TheConstants.{CIRCLES};
ghost use Rattle.kh_types.specs.CircleNumbers.{circle_number};
ghost use Rattle.circle_smoothing.specs.Edges.{HasNumbersBelow, IsEdge};
ghost use Rattle.kh_types.specs.Edges.{arc_at_slot, state_behind};

use crate::change::{Edge, merge, split};
use arrayvec::ArrayVec;
use kh_types::{CLASS_MEMBERS, Dart, Diagram};
use std::marker::Model;

/// The circles of a state of a diagram, numbered from 0 by their least arcs; loops follow.
/// Contracts see them as the diagram's `Code` with the state, a `Resolution`. Source: Bar-Natan
/// 2002, section 2; the numbers are this project's rule.
#[derive(Debug, Drop)]
pub struct Circles {
    pub(crate) diagram: Diagram,
    pub(crate) state: u32,
    pub(crate) numbers: ArrayVec<u8, CLASS_MEMBERS>,
    pub(crate) count: u8,
}

impl Model for Circles {
    ghost use Rattle.circle_smoothing.specs.CircleNumbers.{Resolution};

    ghost Value = { Resolution };

    ghost use Rattle.circle_smoothing.specs.Numbered.{resolution_of_circles, AreNumberedCircles};

    ghost view = { resolution_of_circles };

    ghost invariant = { AreNumberedCircles };
}

impl Circles {
    /// The number of circles.
    pub fn count(&self) -> u8
        ensures count { result ≡ circle_count self.now.code self.now.state }
        ensures within { result ≤ CIRCLES }
    {
        self.count
    }

    /// The number of the circle that an arc is on.
    pub fn of_arc(&self, arc: u8) -> u8
        requires { IsArc self.now.code.crossings arc }
        ensures number { result ≡ circle_number self.now.code self.now.state arc }
        ensures below { result < circle_count self.now.code self.now.state }
    {
        self.numbers[arc as usize]
    }

    /// What the edge at a crossing does that leads from these circles to those behind it. The
    /// crossing has its 0-smoothing here.
    pub fn edge(&self, behind: &Circles, crossing: u8) -> Edge
        requires code { behind.now.code ≡ self.now.code }
        requires state { behind.now.state ≡ state_behind self.now.state crossing }
        requires crossing { IsCrossing self.now.code.crossings crossing }
        requires smoothing { bit self.now.state (place_of crossing) ≡ 0 }
        ensures edge { IsEdge self.now.code self.now.state crossing result }
        ensures numbers { HasNumbersBelow CIRCLES result }
    {
        // (what the type keeps)
        let _ = &self.diagram;
        let (first, third) = (self.arc_at_slot(crossing, 0), self.arc_at_slot(crossing, 2));
        let (x, y) = (self.of_arc(first), self.of_arc(third));
        let (a, b) = (behind.of_arc(first), behind.of_arc(third));
        if x != y {
            merge(x, y, a)
        } else {
            split(x, a, b)
        }
    }

    /// The arc at a slot of a crossing.
    fn arc_at_slot(&self, crossing: u8, slot: u8) -> u8
        requires crossing { IsCrossing self.now.code.crossings crossing }
        requires slot { slot < 4 }
        ensures arc { result ≡ arc_at_slot self.now.code crossing slot }
        ensures within { IsArc self.now.code.crossings result }
    {
        self.diagram.arc_at(Dart { crossing, slot })
    }
}
