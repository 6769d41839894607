//! The sizes of states, and the degrees of their generators.

ghost use Rattle.std.specs.Prelude.{◌≡◌, ℕ, ◌+◌, ◌*◌, pos, ◌+ℤ◌, ◌-ℤ◌, map, IfOk};
ghost use Rattle.std.specs.Ordering.{int_eq};
ghost use Rattle.kh_types.specs.Directions.{minus_count, plus_count};
ghost use Rattle.kh_types.specs.Generators.{states};
ghost use Rattle.cube_signs.specs.Shapes.{has_degree, is_given, resolution_of, resolutions};
ghost use Rattle.cube_signs.specs.Shapes.{shape_of};

use circle_smoothing::{Circles, Smoothings};
use kh_types::{Diagram, NoMemory, ones};
use std::alloc::Global;

/// The size of a state, and the degrees of its generators.
#[derive(Clone, Copy)]
pub struct Shape {
    /// The number of circles.
    pub circles: u8,
    /// The number of crossings that have their 1-smoothing.
    pub ones: u8,
    /// The quantum degree of the generator with v+ on each circle. Each label v- takes 2 from it.
    pub top: i16,
}

impl Shape {
    /// How many labels v- a generator of the quantum degree j has, if any number gives this degree.
    pub fn weight(self, j: i16) -> Option<u16>
        ensures { (count : ℕ) → int_eq (self.top -ℤ pos (2 * count)) j ≡ is_given result count }
    {
        if j > self.top {
            return None;
        }
        let over = self.top.abs_diff(j);
        if over % 2 == 0 { Some(over / 2) } else { None }
    }

    /// Whether the state has a generator of the quantum degree j.
    pub fn has_degree(self, j: i16) -> bool
        ensures { result ≡ has_degree self j }
    {
        match self.weight(j) {
            Some(weight) => weight <= u16::from(self.circles),
            None => false,
        }
    }
}

/// The circles of all states.
pub fn all_circles(alloc: Global, diagram: &Diagram) -> Result<Vec<Circles>, NoMemory>
    ensures { IfOk result (λ all. all.items ≡ resolutions diagram.now) }
{
    let smoothings = Smoothings::new(diagram);
    let mut all = Vec::with_capacity(alloc, 1 << diagram.count())?;
    'states: for state in 0..1u32 << diagram.count() {
        all.push(smoothings.circles(state))?;
    }
    Ok(all)
}

/// The shapes of all states, given their circles.
#[tactic(auto, using(crate::proofs::StateLists::shape_steps))]
pub fn all_shapes(
    alloc: Global,
    diagram: &Diagram,
    circles: &[Circles],
) -> Result<Vec<Shape>, NoMemory>
    requires { circles.now ≡ resolutions diagram.now }
    ensures { IfOk result (λ shapes.
        shapes.items ≡ map (shape_of diagram.now) (states diagram.now)) }
{
    let signs = Signs::of_diagram(diagram);
    let mut shapes = Vec::with_capacity(alloc, circles.len())?;
    'states: for state in 0..circles.len() {
        shapes.push(shape_of(diagram, signs, &circles[state], state))?;
    }
    Ok(shapes)
}

/// How many crossings have either sign.
#[derive(Clone, Copy)]
pub(crate) struct Signs {
    pub(crate) plus: u8,
    pub(crate) minus: u8,
}

impl Signs {
    /// The signs of a diagram.
    pub(crate) fn of_diagram(diagram: &Diagram) -> Signs
        ensures plus { result.plus ≡ plus_count diagram.now.crossings }
        ensures minus { result.minus ≡ minus_count diagram.now.crossings }
    {
        Signs {
            plus: diagram.plus(),
            minus: diagram.minus(),
        }
    }
}

/// The shape of a state, given its circles.
fn shape_of(diagram: &Diagram, signs: Signs, circles: &Circles, state: usize) -> Shape
    requires circles { circles.now ≡ resolution_of diagram.now state }
    requires plus { signs.plus ≡ plus_count diagram.now.crossings }
    requires minus { signs.minus ≡ minus_count diagram.now.crossings }
    ensures { result ≡ shape_of diagram.now state }
{
    let count = circles.count();
    let raised = ones(usize::from(diagram.count()), state as u64);
    Shape {
        circles: count,
        ones: raised,
        top: top(count, raised, signs),
    }
}

/// The quantum degree of the generator of a state with v+ on each circle.
pub(crate) fn top(circles: u8, ones: u8, signs: Signs) -> i16
    ensures { result ≡ pos circles +ℤ (pos (ones + signs.plus) -ℤ pos (2 * signs.minus)) }
{
    i16::from(circles) + i16::from(ones) + i16::from(signs.plus) - 2 * i16::from(signs.minus)
}
