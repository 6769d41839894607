//! The coefficients of the differential, one pair of generators at a time. Crossings are numbered
//! from 1.

ghost use Rattle.std.specs.Prelude.{◌≡◌, ◌≤◌, ◌||◌, ◌&&◌, length, nat_eq};
ghost use Rattle.kh_types.specs.Differential.{label_of, is_touched, is_edge, keeps_labels, changes_labels, edge_sign, coefficient_at, coefficient};
ghost use Rattle.kh_types.specs.declared.limits.TheConstants.{CROSSINGS};

use crate::generators::Generator;
use crate::labels::{is_merge, is_split};
use crate::resolved::Resolved;
use kh_types::{Diagram, bit, ones};
use prime_field::PrimeField;
use prime_field::laws::element_laws;

/// The coefficient from one generator to another: along the one edge that leads from state to
/// state, if any does. Source: Bar-Natan 2002, section 3.
#[tactic(auto, using(crate::proofs::CoefficientLemmas::coefficient_more))]
pub fn coefficient<F: PrimeField>(diagram: &Diagram, tail: Generator, head: Generator) -> F
    ensures { F.value_of result ≡ coefficient F.P diagram.now tail head }
{
    element_laws::<F>();
    let mut sum = F::of(0);
    'crossings: for place in 0..usize::from(diagram.count()) {
        sum = sum.add(coefficient_at(diagram, tail, head, place + 1));
    }
    sum
}

/// The coefficient along the edge at one crossing.
fn coefficient_at<F: PrimeField>(
    diagram: &Diagram,
    tail: Generator,
    head: Generator,
    crossing: usize,
) -> F
    requires low { 1 ≤ crossing }
    requires high { crossing ≤ length diagram.now.crossings }
    requires fits { crossing ≤ CROSSINGS }
    ensures { F.value_of result ≡ coefficient_at F.P diagram.now tail head crossing }
{
    element_laws::<F>();
    if is_edge(tail, head, crossing) && changes(diagram, tail, head, crossing) {
        edge_sign(tail.state, crossing)
    } else {
        F::of(0)
    }
}

/// Whether the state changes at this crossing alone, from its 0-smoothing to its 1-smoothing.
fn is_edge(tail: Generator, head: Generator, crossing: usize) -> bool
    requires low { 1 ≤ crossing }
    requires high { crossing ≤ CROSSINGS }
    ensures { result ≡ is_edge tail head crossing }
{
    let place = crossing - 1;
    bit(u64::from(tail.state), place) == 0
        && u64::from(head.state) == u64::from(tail.state) + (1u64 << place)
}

/// Whether the labels change as the tables of merges and splits say, and all others stay.
fn changes(diagram: &Diagram, tail: Generator, head: Generator, crossing: usize) -> bool
    requires low { 1 ≤ crossing }
    requires high { crossing ≤ length diagram.now.crossings }
    ensures { result ≡ (keeps_labels diagram.now tail head crossing
        && changes_labels diagram.now tail head crossing) }
{
    let tail = Resolved::new(diagram, tail);
    let head = Resolved::new(diagram, head);
    keeps_labels(&tail, &head, crossing) && changes_labels(&tail, &head, crossing)
}

/// Whether every circle that is not touched has the same label in both.
fn keeps_labels(tail: &Resolved, head: &Resolved, crossing: usize) -> bool
    requires low { 1 ≤ crossing }
    requires high { crossing ≤ length tail.now.diagram.crossings }
    requires same { head.now.diagram ≡ tail.now.diagram }
    ensures { let code = tail.now.diagram in
        result ≡ keeps_labels code tail.now.generator head.now.generator crossing }
{
    tail.names()
        .iter()
        .all(|circle| keeps_label(tail, head, crossing, *circle))
}

/// Whether a circle that is not touched has the same label in both.
fn keeps_label(tail: &Resolved, head: &Resolved, crossing: usize, circle: u8) -> bool
    requires low { 1 ≤ crossing }
    requires high { crossing ≤ length tail.now.diagram.crossings }
    requires same { head.now.diagram ≡ tail.now.diagram }
    ensures { let code = tail.now.diagram in
        result ≡ (is_touched code tail.now.generator.state crossing circle
        || nat_eq (label_of code tail.now.generator circle)
        (label_of code head.now.generator circle)) }
{
    tail.is_touched(crossing, circle) || tail.label_of(circle) == head.label_of(circle)
}

/// Whether the labels of the touched circles are a row of the merge table or of the split table.
fn changes_labels(tail: &Resolved, head: &Resolved, crossing: usize) -> bool
    requires low { 1 ≤ crossing }
    requires high { crossing ≤ length tail.now.diagram.crossings }
    requires same { head.now.diagram ≡ tail.now.diagram }
    ensures { let code = tail.now.diagram in
        result ≡ changes_labels code tail.now.generator head.now.generator crossing }
{
    let before = tail.touched_labels(crossing);
    let after = head.touched_labels(crossing);
    is_merge(before.as_slice(), after.as_slice()) || is_split(before.as_slice(), after.as_slice())
}

/// -1 to the number of crossings listed before this one that have their 1-smoothing.
/// Source: Bar-Natan 2002, section 3.
#[tactic(auto, using(crate::proofs::CoefficientLemmas::signs))]
fn edge_sign<F: PrimeField>(state: u32, crossing: usize) -> F
    requires low { 1 ≤ crossing }
    requires high { crossing ≤ CROSSINGS }
    ensures { F.value_of result ≡ edge_sign F.P state crossing }
{
    element_laws::<F>();
    if ones(crossing - 1, u64::from(state)) % 2 == 0 {
        F::of(1)
    } else {
        F::of(1).neg()
    }
}
