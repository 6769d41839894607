//! The shapes of the kinds of states.

ghost use Rattle.std.specs.Prelude.{◌≡◌, ◌++◌, ◌<◌, ◌≤◌, IfOk, IsTrue, OnOk, length};
ghost use Rattle.kh_types.specs.Acceptance.{accepted};
ghost use Rattle.kh_types.specs.Directions.{minus_count, plus_count};
ghost use Rattle.kh_types.specs.declared.limits.TheConstants.{CROSSINGS};
ghost use Rattle.circle_smoothing.specs.declared.kinds.TheConstants.{KINDS};
ghost use Rattle.cube_signs.specs.KindShapes.{all_kind_shapes, shapes_of_kind};

use crate::shape::{Shape, Signs, top};
use circle_smoothing::{COLUMNS, CountedDiagram, KINDS};
use kh_types::NoMemory;
use kh_types::laws::diagrams::diagram_laws;
use std::alloc::Global;

/// The shapes that the states of a diagram have, one for each kind that has states.
pub fn kind_shapes(alloc: Global, counted: &CountedDiagram) -> Result<Vec<Shape>, NoMemory>
    ensures shapes { IfOk result (λ shapes. shapes.items ≡ all_kind_shapes counted.now) }
    ensures code { IsTrue (accepted counted.now) }
    ensures few { length counted.now.crossings ≤ CROSSINGS }
{
    let diagram = counted.diagram();
    diagram_laws(diagram);
    let signs = Signs::of_diagram(diagram);
    let mut shapes = Vec::new(alloc);
    'kinds: for kind in 0..KINDS {
        push_shape(&mut shapes, counted, signs, kind)?;
    }
    Ok(shapes)
}

/// Adds the shape of a kind, where it has states.
fn push_shape(
    shapes: &mut Vec<Shape>,
    counted: &CountedDiagram,
    signs: Signs,
    kind: usize,
) -> Result<(), NoMemory>
    requires kind { kind < KINDS }
    requires plus { signs.plus ≡ plus_count counted.now.crossings }
    requires minus { signs.minus ≡ minus_count counted.now.crossings }
    ensures { OnOk result (shapes.new.items
        ≡ shapes.old.items ++ shapes_of_kind counted.now kind) }
{
    let (ones, circles) = (kind / COLUMNS, kind % COLUMNS);
    if counted.count(ones, circles) != 0 {
        shapes.push(Shape {
            circles: circles as u8,
            ones: ones as u8,
            top: top(circles as u8, ones as u8, signs),
        })?;
    }
    Ok(())
}
