//! The reduced quantum degrees that have a generator.

ghost use Rattle.std.specs.Prelude.{◌≡◌, ◌++◌, ◌∷◌, [], if◌then◌else◌, IfOk, OnOk};
ghost use Rattle.std.specs.Prelude.{pos, neg_ℤ, ◌≤ℤ◌};
ghost use Rattle.kh_types.specs.CircleNumbers.{IsName};
ghost use Rattle.reduced_cube.specs.Degrees.{shape_has_reduced, some_shape_has_reduced};
ghost use Rattle.reduced_cube.specs.Degrees.{is_from_one, reduced_degrees_of};
ghost use Rattle.reduced_cube.specs.Reduced.{reduced_degrees};
ghost use Rattle.kh_types.specs.declared.limits.TheConstants.{EXPONENT};

use circle_smoothing::CountedDiagram;
use cube_signs::{Shape, kind_shapes};
use kh_types::{Diagram, EXPONENT, NoMemory};
use std::alloc::Global;

/// The reduced quantum degrees that have a generator, ascending. They are the same for each mark
/// (`laws::marks_have_the_same_degrees`). Source: Khovanov 2003, section 3; the shift by 1 is this
/// project's rule.
pub fn reduced_degrees(alloc: Global, diagram: &Diagram, mark: u8) -> Result<Vec<i16>, NoMemory>
    requires { IsName diagram.now mark }
    ensures { IfOk result (λ degrees. degrees.items ≡ reduced_degrees diagram.now mark) }
{
    // (the contract alone speaks of it)
    let _ = mark;
    let shapes = kind_shapes(alloc, &CountedDiagram::of_diagram(diagram))?;
    degrees(alloc, &shapes)
}

/// The reduced quantum degrees that have a generator, given the shapes that states have.
#[tactic(auto, using(crate::proofs::DegreeLemmas::degree_steps))]
fn degrees(alloc: Global, shapes: &[Shape]) -> Result<Vec<i16>, NoMemory>
    ensures { IfOk result (λ made. made.items ≡ reduced_degrees_of shapes.now) }
{
    let mut made = Vec::new(alloc);
    'degrees: for place in 0..2 * EXPONENT + 1 {
        push_degree(&mut made, shapes, place as i16 - EXPONENT as i16)?;
    }
    Ok(made)
}

/// Adds a reduced quantum degree, where it has a generator.
fn push_degree(made: &mut Vec<i16>, shapes: &[Shape], j: i16) -> Result<(), NoMemory>
    requires { neg_ℤ (pos EXPONENT) ≤ℤ j }
    ensures { OnOk result (made.new.items
        ≡ made.old.items ++ (if some_shape_has_reduced shapes.now j then j ∷ [] else [])) }
{
    if some_shape_has_reduced(shapes, j) {
        made.push(j)?;
    }
    Ok(())
}

/// Whether some state has a generator of the reduced quantum degree j.
fn some_shape_has_reduced(shapes: &[Shape], j: i16) -> bool
    requires { neg_ℤ (pos EXPONENT) ≤ℤ j }
    ensures { result ≡ some_shape_has_reduced shapes.now j }
{
    shapes.iter().any(|shape| shape_has_reduced(*shape, j))
}

/// Whether a state has a generator of the reduced quantum degree j: it has from 1 to all labels v-.
fn shape_has_reduced(shape: Shape, j: i16) -> bool
    requires { neg_ℤ (pos EXPONENT) ≤ℤ j }
    ensures { result ≡ shape_has_reduced j shape }
{
    is_from_one(shape.weight(j - 1), shape.circles)
}

/// Whether a number is given, from 1 to a last one.
fn is_from_one(given: Option<u16>, last: u8) -> bool
    ensures { result ≡ is_from_one given last }
{
    match given {
        Some(number) => 1 <= number && number <= u16::from(last),
        None => false,
    }
}
