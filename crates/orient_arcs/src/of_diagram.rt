//! What is asked of a diagram: its components, and the arc that follows an arc.

ghost use Rattle.std.specs.Prelude.{◌≡◌};
ghost use Rattle.kh_types.specs.Code.{IsArc};
ghost use Rattle.kh_types.specs.Components.{next};

use crate::numbered::Components;
use kh_types::{Diagram, components_of, next_in};

/// The components of a diagram, numbered from 0 by their least arcs; loops are not counted.
pub fn components(diagram: &Diagram) -> Components
    ensures { result ≡ diagram.now }
{
    Components::of_diagram(diagram)
}

/// The arc that follows an arc along the orientation: after the last arc of a component comes its
/// first, and after any other arc the next number. Arcs are 1 to twice the number of crossings.
/// Source: Knot Atlas, "Planar Diagrams".
#[tactic(auto, using(code_passes::proofs::LeastArcs::components_size))]
pub fn next(diagram: &Diagram, arc: u8) -> u8
    requires { IsArc diagram.now.crossings arc }
    ensures follows { result ≡ next diagram.now.crossings arc }
    ensures within { IsArc diagram.now.crossings result }
{
    next_in(&components_of(diagram.crossings()), arc) as u8
}
