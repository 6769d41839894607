//! The circles of a marked arc or loop.

ghost use Rattle.std.specs.Prelude.{◌≡◌, ◌+◌, ◌*◌, ◌^◌, ◌<◌, ◌≤◌, ◌↔◌, length, map, IfOk, IsTrue};
ghost use Rattle.kh_types.specs.CircleNumbers.{circle_number, IsName};
ghost use Rattle.kh_types.specs.Generators.{states};
ghost use Rattle.reduced_cube.specs.Marks.{marked_circles};
ghost use Rattle.reduced_cube.specs.Reduced.{is_mark};

use circle_smoothing::{Circles, Smoothings};
use kh_types::laws::diagrams::diagram_laws;
use kh_types::{Diagram, NoMemory};
use std::alloc::Global;

/// Whether a number is that of an arc or of a loop.
pub(crate) fn is_mark(diagram: &Diagram, mark: u8) -> bool
    ensures { result ≡ is_mark diagram.now mark }
{
    let last = 2 * diagram.count() + diagram.loops();
    1 <= mark && mark <= last
}

/// For each state the number of the circle that a mark is on.
pub(crate) fn marked_circles(
    alloc: Global,
    diagram: &Diagram,
    mark: u8,
) -> Result<Vec<u8>, NoMemory>
    requires { IsName diagram.now mark }
    ensures { IfOk result (λ circles. circles.items ≡ marked_circles diagram.now mark) }
{
    // (the number of crossings is small)
    diagram_laws(diagram);
    let smoothings = Smoothings::new(diagram);
    let count = 1u32 << diagram.count();
    let mut circles = Vec::with_capacity(alloc, count as usize)?;
    'states: for state in 0..count {
        circles.push(circle_of(diagram, &smoothings.circles(state), mark))?;
    }
    Ok(circles)
}

/// The number of the circle that a mark is on: loops are the last circles, in their order.
fn circle_of(diagram: &Diagram, circles: &Circles, mark: u8) -> u8
    requires code { circles.now.code ≡ diagram.now }
    requires mark { IsName diagram.now mark }
    ensures { result ≡ circle_number diagram.now circles.now.state mark }
{
    diagram_laws(diagram);
    let arcs = 2 * diagram.count();
    if mark <= arcs {
        circles.of_arc(mark)
    } else {
        circles.count() - 1 - (arcs + diagram.loops() - mark)
    }
}
