//! A generator together with the circles of its state.

ghost use Rattle.std.specs.Prelude.{◌≡◌, ◌+◌, ◌<◌, ◌≤◌, ◌++◌, ◌∷◌, [], length, map, nat_eq};
ghost use Rattle.std.specs.List.{filter, position, position_or_len};
ghost use Rattle.arrayvec.specs.ArrayVec.{array_vec_len};
ghost use Rattle.kh_types.specs.Code.{slots_of};
ghost use Rattle.kh_types.specs.Circles.{circles_of, circle_names};
ghost use Rattle.kh_types.specs.Differential.{label_of, is_touched, touched};
ghost use Rattle.plain_table.specs.declared.circles.TheConstants.{NAMES};

use crate::circles::{Circles, Names, circle_names, circles_of};
use crate::generators::Generator;
use crate::labels::Labels;
use arrayvec::ArrayVec;
use kh_types::{Crossing, Diagram, bit, class_of};

/// A generator of a diagram's cube, the circle of each arc and loop in its state, and the names of
/// the circles.
#[derive(Drop)]
pub struct Resolved {
    diagram: Diagram,
    generator: Generator,
    circles: Circles,
    names: Names,
    ghost circles_are: { circles.items ≡ circles_of diagram generator.state },
    ghost names_are: { names.items ≡ circle_names diagram generator.state },
}

impl Resolved {
    /// A generator with its circles.
    pub fn new(diagram: &Diagram, generator: Generator) -> Resolved
        ensures diagram { result.diagram ≡ diagram.now }
        ensures generator { result.generator ≡ generator }
    {
        let circles = circles_of(diagram, generator.state);
        let names = circle_names(diagram, &circles);
        Resolved {
            diagram: *diagram,
            generator,
            circles,
            names,
        }
    }

    /// The label of the circle of an arc or a loop: 0 for v+, 1 for v-.
    pub fn label_of(&self, arc: u8) -> u8
        ensures { result ≡ label_of self.now.diagram self.now.generator arc }
    {
        let circle = class_of(&self.circles, usize::from(arc));
        bit(
            self.generator.label,
            place_among(self.names.as_slice(), circle),
        )
    }

    /// The names of the circles, ascending.
    pub fn names(&self) -> &[u8]
        ensures { result.now ≡ circle_names self.now.diagram self.now.generator.state }
    {
        self.names.as_slice()
    }

    /// Whether a circle has an arc of a crossing.
    pub fn is_touched(&self, crossing: usize, circle: u8) -> bool
        requires low { 1 ≤ crossing }
        requires high { crossing ≤ length self.now.diagram.crossings }
        ensures { result ≡ is_touched self.now.diagram self.now.generator.state crossing circle }
    {
        let slots = slots(&self.diagram, crossing);
        let circles = self.circles.as_slice();
        slots
            .0
            .iter()
            .any(|arc| class_of(circles, usize::from(*arc)) == circle)
    }

    /// The labels of the circles that a crossing touches, by their least arcs.
    pub fn touched_labels(&self, crossing: usize) -> Labels
        requires low { 1 ≤ crossing }
        requires high { crossing ≤ length self.now.diagram.crossings }
        ensures { let code = self.now.diagram in let generator = self.now.generator in
            result.items ≡ map (label_of code generator) (touched code generator.state crossing) }
    {
        let mut labels = ArrayVec::new();
        let names = self.names.as_slice();
        'names: for circle in names {
            self.push_label(&mut labels, crossing, *circle);
        }
        labels
    }

    /// Adds the label of a circle to a list where a crossing touches it.
    fn push_label(&self, labels: &mut Labels, crossing: usize, circle: u8)
        requires low { 1 ≤ crossing }
        requires high { crossing ≤ length self.now.diagram.crossings }
        requires room { array_vec_len labels.old < NAMES }
        ensures labels { let code = self.now.diagram in let generator = self.now.generator in
            labels.new.items ≡ labels.old.items
            ++ map (label_of code generator)
            (filter (is_touched code generator.state crossing) (circle ∷ [])) }
        ensures size { array_vec_len labels.new ≤ array_vec_len labels.old + 1 }
    {
        if self.is_touched(crossing, circle) {
            labels.push(self.label_of(circle));
        }
    }
}

/// The four arcs of a crossing.
fn slots(diagram: &Diagram, crossing: usize) -> &Crossing
    requires low { 1 ≤ crossing }
    requires high { crossing ≤ length diagram.now.crossings }
    ensures { result.now ≡ slots_of diagram.now.crossings crossing }
{
    &diagram.crossings()[crossing - 1]
}

/// The place of a circle among the names, or their number where it is none of them.
#[tactic(auto, using(kh_types::proofs::Lists::places))]
fn place_among(names: &[u8], circle: u8) -> usize
    ensures { result ≡ position_or_len (nat_eq circle) names.now }
{
    first_place(names, circle).unwrap_or(names.len())
}

fn first_place(names: &[u8], circle: u8) -> Option<usize>
    ensures { result ≡ position (nat_eq circle) names.now }
{
    names.iter().position(|name| circle == *name)
}
