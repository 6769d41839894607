//! The arcs at a crossing.

ghost use Rattle.std.specs.Prelude.{◌≡◌, ◌<◌, ◌≤◌};
ghost use Rattle.kh_types.specs.Code.{IsCrossing, arc_in, slots_of};
ghost use Rattle.kh_types.specs.declared.limits.TheConstants.{ARCS};
ghost use Rattle.link_algebra.specs.Mirrors.{slots_from};
ghost use Rattle.link_algebra.specs.Unions.{raised_slots};

use kh_types::laws::diagrams::diagram_laws;
use kh_types::{Crossing, Dart, Diagram};

/// The arcs at a crossing, counterclockwise, from a slot on.
pub(crate) fn slots_from(diagram: &Diagram, crossing: u8, first: u8) -> Crossing
    requires crossing { IsCrossing diagram.now.crossings crossing }
    requires first { first < 4 }
    ensures { result ≡ slots_from first (slots_of diagram.now.crossings crossing) }
{
    Crossing([
        arc_at(diagram, crossing, first),
        arc_at(diagram, crossing, (first + 1) % 4),
        arc_at(diagram, crossing, (first + 2) % 4),
        arc_at(diagram, crossing, (first + 3) % 4),
    ])
}

/// The arcs at a crossing, each number raised.
pub(crate) fn raised_slots(diagram: &Diagram, crossing: u8, by: u8) -> Crossing
    requires crossing { IsCrossing diagram.now.crossings crossing }
    requires by { by ≤ ARCS }
    ensures { result ≡ raised_slots by (slots_of diagram.now.crossings crossing) }
{
    Crossing([
        arc_at(diagram, crossing, 0) + by,
        arc_at(diagram, crossing, 1) + by,
        arc_at(diagram, crossing, 2) + by,
        arc_at(diagram, crossing, 3) + by,
    ])
}

/// The arc at a slot of a crossing.
fn arc_at(diagram: &Diagram, crossing: u8, slot: u8) -> u8
    requires crossing { IsCrossing diagram.now.crossings crossing }
    requires slot { slot < 4 }
    ensures arc { result ≡ arc_in (slots_of diagram.now.crossings crossing) slot }
    ensures within { result ≤ ARCS }
{
    diagram_laws(diagram);
    diagram.arc_at(Dart { crossing, slot })
}
