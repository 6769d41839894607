//! The labels of a diagram's components, and the signs of its crossings.

ghost use Rattle.std.specs.Prelude.{◌≡◌, ◌+◌, ◌-◌, ◌≤◌, drop, length, map, take, IfOk, IsTrue};
ghost use Rattle.kh_types.specs.declared.limits.TheConstants.{CROSSINGS};
ghost use Rattle.kh_types.specs.Code.{IsArc, arcs, crossing_numbers};
ghost use Rattle.kh_types.specs.Acceptance.{accepted};
ghost use Rattle.kh_types.specs.Directions.{sign_of};
ghost use Rattle.code_passes.specs.ComponentLabels.{entering_label, labels_of_code};

use arrayvec::ArrayVec;
use kh_types::{ARCS, CROSSINGS, Diagram, NoMemory};
use orient_arcs::components;
use std::alloc::Global;

/// The labels of each component, from the pass on that its least arc enters.
pub fn component_labels(alloc: Global, diagram: &Diagram) -> Result<Vec<Vec<i8>>, NoMemory>
    ensures { IfOk result (λ groups.
        map (λ group. group.items) groups.items ≡ labels_of_code diagram.now.crossings) }
{
    let labels = arc_labels(diagram);
    let components = components(diagram);
    let mut groups = Vec::new(alloc);
    for component in 0..components.count() {
        let first = components.first(component);
        let length = components.length(component);
        groups.push(labels_from(alloc, &labels, first, length)?)?;
    }
    Ok(groups)
}

/// Of the labels of all arcs those of some that follow one another.
fn labels_from(alloc: Global, labels: &[i8], first: u8, count: u8) -> Result<Vec<i8>, NoMemory>
    requires positive { 1 ≤ first }
    requires within { first - 1 + count ≤ length labels.now }
    ensures { IfOk result (λ group. group.items ≡ take count (drop (first - 1) labels.now)) }
{
    let start = usize::from(first) - 1;
    let end = start + usize::from(count);
    Ok(Vec::from_slice(alloc, &labels[start..end])?)
}

/// The labels of the passes that the arcs enter, in the order of the arcs.
#[tactic(auto, using(kh_types::proofs::Ranges::range_steps))]
fn arc_labels(diagram: &Diagram) -> ArrayVec<i8, ARCS>
    ensures labels { result.items
        ≡ map (entering_label diagram.now.crossings) (arcs diagram.now.crossings) }
    ensures accepted { IsTrue (accepted diagram.now) }
{
    let crossings = diagram.crossings();
    let mut labels = ArrayVec::new();
    for before in 0..2 * crossings.len() as u8 {
        labels.push(entering_label(diagram, before + 1));
    }
    labels
}

/// The label of the pass that an arc enters.
fn entering_label(diagram: &Diagram, arc: u8) -> i8
    requires arc { IsArc diagram.now.crossings arc }
    requires few { length diagram.now.crossings ≤ CROSSINGS }
    ensures { result ≡ entering_label diagram.now.crossings arc }
{
    let head = diagram.head(arc);
    let crossing = head.crossing as i8;
    if head.slot == 0 { -crossing } else { crossing }
}

/// The signs of the crossings, in order.
#[tactic(auto, using(kh_types::proofs::Ranges::range_steps))]
pub fn signs_of(diagram: &Diagram) -> ArrayVec<i8, CROSSINGS>
    ensures { result.items
        ≡ map (sign_of diagram.now.crossings) (crossing_numbers diagram.now.crossings) }
{
    let mut signs = ArrayVec::new();
    for before in 0..diagram.count() {
        signs.push(diagram.sign(before + 1));
    }
    signs
}
