//! The generators of the cube, each with its two degrees.

ghost use Rattle.std.specs.Prelude.{◌≡◌, ◌≤◌, ◌+◌, ◌*◌, ◌++◌, map, pos, neg_ℤ, ◌-ℤ◌, ◌≤ℤ◌, IfOk, OnOk};
ghost use Rattle.std.specs.List.{filter};
ghost use Rattle.kh_types.specs.Generators.{generators, generators_of};
ghost use Rattle.kh_types.specs.declared.limits.TheConstants.{CIRCLES, CROSSINGS};
ghost use Rattle.plain_table.specs.Placed.{placed_in, placed_by, shared_in, is_placed_at};

use crate::circles::{circle_names, circles_of};
use kh_types::{Diagram, NoMemory, ones};
use std::alloc::{AllocError, Global};
use std::marker::Model;

/// A state with a label on each circle; the label's bit at a circle's place among the circles is 0
/// for v+ and 1 for v-. Contracts see the definition's generator. Source: Bar-Natan 2002, section
/// 3.
#[derive(Clone, Copy)]
pub struct Generator {
    pub state: u32,
    pub label: u64,
}

impl Model for Generator {
    ghost use Rattle.kh_types.specs.Generators as defined;

    ghost Value = { defined.Generator };

    ghost view = { λ g. record { state = g.state; label = g.label } };

    ghost inverse = { λ g. record { state = g.state; label = g.label } };
}

/// A generator with its homological degree i and its quantum degree j.
#[derive(Clone, Copy)]
pub struct Placed {
    pub generator: Generator,
    pub i: i16,
    pub j: i16,
}

/// What the generators of a state share: the number of circles, the degree i, and what j has above
/// the label degree.
#[derive(Clone, Copy)]
struct Shared {
    circles: usize,
    i: i16,
    shift: i16,
}

/// All generators, by state, then by label.
#[tactic(auto, using(crate::proofs::GeneratorLemmas::states_more))]
pub fn generators(alloc: Global, diagram: &Diagram) -> Result<Vec<Placed>, NoMemory>
    ensures { IfOk result (λ made.
        made.items ≡ map (placed_in diagram.now) (generators diagram.now)) }
{
    let mut made = Vec::new(alloc);
    'states: for state in 0..1u32 << diagram.count() {
        push_generators(&mut made, diagram, state)?;
    }
    Ok(made)
}

/// Adds the generators of a state to a list.
#[tactic(auto, using(crate::proofs::GeneratorLemmas::labels_more))]
fn push_generators(made: &mut Vec<Placed>, diagram: &Diagram, state: u32) -> Result<(), NoMemory>
    ensures { OnOk result (made.new.items
        ≡ made.old.items ++ map (placed_in diagram.now) (generators_of diagram.now state)) }
{
    let shared = shared_by(diagram, state);
    'labels: for label in 0..1u64 << shared.circles {
        made.push(with_degrees(shared, Generator { state, label }))?;
    }
    Ok(())
}

/// What the generators of a state share.
fn shared_by(diagram: &Diagram, state: u32) -> Shared
    ensures shared { result ≡ shared_in diagram.now state }
    ensures circles { result.circles ≤ CIRCLES }
    ensures low { neg_ℤ (pos (2 * CROSSINGS)) ≤ℤ result.shift }
    ensures high { result.shift ≤ℤ pos (2 * CROSSINGS) }
{
    let circles = circle_names(diagram, &circles_of(diagram, state)).len();
    let raised = ones(diagram.crossings().len(), u64::from(state));
    let (plus, minus) = (diagram.plus(), diagram.minus());
    Shared {
        circles,
        i: homological_degree(raised, minus),
        shift: shift(raised, plus, minus),
    }
}

/// The degree i.
fn homological_degree(raised: u8, minus: u8) -> i16
    ensures { result ≡ pos raised -ℤ pos minus }
{
    i16::from(raised) - i16::from(minus)
}

/// What the quantum degree has above the label degree.
fn shift(raised: u8, plus: u8, minus: u8) -> i16
    requires raised { raised ≤ CROSSINGS }
    requires plus { plus ≤ CROSSINGS }
    requires minus { minus ≤ CROSSINGS }
    ensures shift { result ≡ pos (raised + plus) -ℤ pos (2 * minus) }
    ensures low { neg_ℤ (pos (2 * CROSSINGS)) ≤ℤ result }
    ensures high { result ≤ℤ pos (2 * CROSSINGS) }
{
    i16::from(raised) + i16::from(plus) - 2 * i16::from(minus)
}

/// A generator with its two degrees.
fn with_degrees(shared: Shared, generator: Generator) -> Placed
    requires circles { shared.circles ≤ CIRCLES }
    requires low { neg_ℤ (pos (2 * CROSSINGS)) ≤ℤ shared.shift }
    requires high { shared.shift ≤ℤ pos (2 * CROSSINGS) }
    ensures { result ≡ placed_by shared generator }
{
    let labelled = shared.circles as i16 - 2 * i16::from(ones(shared.circles, generator.label));
    Placed {
        generator,
        i: shared.i,
        j: labelled + shared.shift,
    }
}

/// The generators of two degrees, in the same order.
pub fn generators_at(
    alloc: Global,
    all: &[Placed],
    i: i16,
    j: i16,
) -> Result<Vec<Placed>, AllocError>
    ensures { IfOk result (λ made. made.items ≡ filter (is_placed_at i j) all.now) }
{
    all.iter()
        .filter(|placed| placed.i == i && placed.j == j)
        .copied()
        .collect(alloc)
}
