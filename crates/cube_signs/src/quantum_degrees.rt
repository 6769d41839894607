//! The quantum degrees that have a generator.

ghost use Rattle.std.specs.Prelude.{◌≡◌, ◌++◌, ◌∷◌, [], if◌then◌else◌, IfOk, OnOk};
ghost use Rattle.cube_signs.specs.Blocks.{block_degrees};
ghost use Rattle.cube_signs.specs.Shapes.{degrees_of, have_degree};

use crate::by_kind::kind_shapes;
use crate::shape::Shape;
use circle_smoothing::CountedDiagram;
use kh_types::{Diagram, EXPONENT, NoMemory};
use std::alloc::Global;

/// The quantum degrees that have a generator, ascending.
pub fn block_degrees(alloc: Global, diagram: &Diagram) -> Result<Vec<i16>, NoMemory>
    ensures { IfOk result (λ degrees. degrees.items ≡ block_degrees diagram.now) }
{
    counted_degrees(alloc, &CountedDiagram::of_diagram(diagram))
}

/// The same, of a diagram with its states counted.
pub fn counted_degrees(alloc: Global, counted: &CountedDiagram) -> Result<Vec<i16>, NoMemory>
    ensures { IfOk result (λ degrees. degrees.items ≡ block_degrees counted.now) }
{
    let shapes = kind_shapes(alloc, counted)?;
    degrees(alloc, &shapes)
}

/// The quantum degrees that have a generator, given the shapes that states have.
#[tactic(auto, using(crate::proofs::ShapeLemmas::degree_steps))]
fn degrees(alloc: Global, shapes: &[Shape]) -> Result<Vec<i16>, NoMemory>
    ensures { IfOk result (λ made. made.items ≡ degrees_of shapes.now) }
{
    let mut made = Vec::new(alloc);
    'degrees: for place in 0..2 * EXPONENT + 1 {
        push_degree(&mut made, shapes, place as i16 - EXPONENT as i16)?;
    }
    Ok(made)
}

/// Adds a quantum degree, where it has a generator.
fn push_degree(made: &mut Vec<i16>, shapes: &[Shape], j: i16) -> Result<(), NoMemory>
    ensures { OnOk result (made.new.items
        ≡ made.old.items ++ (if have_degree shapes.now j then j ∷ [] else [])) }
{
    if have_degree(shapes, j) {
        made.push(j)?;
    }
    Ok(())
}

/// Whether some state has a generator of the quantum degree j.
fn have_degree(shapes: &[Shape], j: i16) -> bool
    ensures { result ≡ have_degree shapes.now j }
{
    shapes.iter().any(|shape| shape.has_degree(j))
}
