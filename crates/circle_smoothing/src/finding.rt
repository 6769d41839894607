//! The circles of a state, what an edge of the cube does, and how many generators there are.

ghost use Rattle.std.specs.Prelude.{◌≡◌, ◌+◌, ◌^◌, ◌<◌, ◌≤◌, length};
ghost use Rattle.kh_types.specs.Bits.{bit};
ghost use Rattle.kh_types.specs.Code.{IsCrossing, place_of};
ghost use Rattle.kh_types.specs.declared.limits.TheConstants.{CIRCLES, CROSSINGS};
ghost use Rattle.circle_smoothing.specs.Edges.{IsEdge};
ghost use Rattle.circle_smoothing.specs.GeneratorCounts.{generator_count};

use crate::change::Edge;
use crate::kinds::CountedDiagram;
use crate::numbered::Circles;
use crate::prepared::Smoothings;
use kh_types::Diagram;

/// The circles of a state: a number below 2^n for n crossings, whose bit at a crossing's place is 1
/// where the crossing has its 1-smoothing. Source: Bar-Natan 2002, section 2.
pub fn circles(diagram: &Diagram, state: u32) -> Circles
    requires { state < 2 ^ length diagram.now.crossings }
    ensures code { result.code ≡ diagram.now }
    ensures state { result.state ≡ state }
{
    Smoothings::new(diagram).circles(state)
}

/// What the edge of the cube at a crossing does that starts in a state in which the crossing has
/// its 0-smoothing. Source: Bar-Natan 2002, section 3.
pub fn edge(diagram: &Diagram, state: u32, crossing: u8) -> Edge
    requires state { state < 2 ^ length diagram.now.crossings }
    requires crossing { IsCrossing diagram.now.crossings crossing }
    requires smoothing { bit state (place_of crossing) ≡ 0 }
    ensures { IsEdge diagram.now state crossing result }
{
    Smoothings::new(diagram).edge(state, crossing)
}

/// The number of generators of the cube: the sum over all states of 2 to the number of circles.
/// Source: Bar-Natan 2002, section 3.
pub fn generator_count(diagram: &Diagram) -> u128
    ensures count { result ≡ generator_count diagram.now }
    ensures within { result ≤ 2 ^ (CROSSINGS + CIRCLES) }
{
    CountedDiagram::of_diagram(diagram).generator_count()
}
