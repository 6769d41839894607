//! The passes of components at crossings, and the crossings that they make.

ghost use Rattle.std.specs.Prelude.{◌≡◌, ◌≤◌, ◌<◌, ◌+◌, ◌++◌, length, neg_ℤ, pos};
ghost use Rattle.std.specs.List.{find};
ghost use Rattle.std.specs.Ordering.{int_eq};
ghost use Rattle.kh_types.specs.declared.limits.TheConstants.{CROSSINGS};
ghost use Rattle.gauss_code.specs.declared.listing.TheConstants.{LABELS};
ghost use Rattle.gauss_code.specs.Held.{labels_held, numbers_of};
ghost use Rattle.code_passes.specs.Labels.{listed_number};
ghost use Rattle.code_passes.specs.Passes.{all_passes, pass_at, pass_of, passes_from, slots_by_passes, slots_between, turned_labels};

use crate::labels::listed_number;
use crate::listing::LABELS;
use arrayvec::ArrayVec;
use code_passes::Pass;
use kh_types::{CROSSINGS, Crossing};

/// Adds the passes of components, whose arcs follow those of the passes before, and for which
/// there is room.
pub fn push_all_passes(passes: &mut ArrayVec<Pass, LABELS>, components: &[Vec<i32>])
    requires { length passes.old.items + length (labels_held components.now) ≤ LABELS }
    ensures { passes.new.items ≡ passes.old.items
        ++ all_passes (length passes.old.items + 1) (numbers_of components.now) }
{
    for labels in components {
        push_passes(passes, labels);
    }
}

/// Adds the passes of a component, whose arcs follow those of the passes before, and for which
/// there is room.
#[tactic(auto, using(crate::proofs::PassLemmas::one_more_pass))]
pub fn push_passes(passes: &mut ArrayVec<Pass, LABELS>, labels: &[i32])
    requires { length passes.old.items + length labels.now ≤ LABELS }
    ensures { passes.new.items ≡ passes.old.items
        ++ passes_from (length passes.old.items + 1) (turned_labels labels.now) }
{
    let first = passes.len() as u8 + 1;
    for at in 0..labels.len() {
        passes.push(pass_at(first, labels, at));
    }
}

/// The pass at a place of a component, turned where it is, whose first arc is given.
fn pass_at(first: u8, labels: &[i32], at: usize) -> Pass
    requires at { at < length labels.now }
    requires few { first + length labels.now ≤ LABELS + 1 }
    ensures { result ≡ pass_at first (turned_labels labels.now) at }
{
    let enters = first + at as u8;
    Pass {
        label: listed_number(labels, place_before_turning(labels, at)),
        enters,
        leaves: if at + 1 == labels.len() {
            first
        } else {
            enters + 1
        },
    }
}

/// The place where the label at a place of a turned component is listed.
fn place_before_turning(labels: &[i32], at: usize) -> usize
    requires at { at < length labels.now }
    ensures label { listed_number labels.now result ≡ listed_number (turned_labels labels.now) at }
{
    match *labels {
        [first, second] if first > 0 && second > 0 && second < first => 1 - at,
        _ => at,
    }
}

/// The crossing at a place.
pub fn crossing_at(passes: &[Pass], signs: &[i32], at: usize) -> Crossing
    requires { at < CROSSINGS }
    ensures { result ≡ slots_by_passes passes.now signs.now at }
{
    let under = pass_of(passes, under_label(at));
    let over = pass_of(passes, over_label(at));
    slots_between(under, over, listed_number(signs, at))
}

/// The label of the over pass of the crossing at a place.
fn over_label(at: usize) -> i32
    requires { at < CROSSINGS }
    ensures { result ≡ pos (at + 1) }
{
    at as i32 + 1
}

/// The label of the under pass of the crossing at a place.
fn under_label(at: usize) -> i32
    requires { at < CROSSINGS }
    ensures { result ≡ neg_ℤ (pos (at + 1)) }
{
    -(at as i32 + 1)
}

/// The pass with a label.
fn pass_of(passes: &[Pass], label: i32) -> Pass
    ensures { result ≡ pass_of passes.now label }
{
    pass_with(passes, label).unwrap_or(Pass::default())
}

/// The pass with a label, if there is one.
fn pass_with(passes: &[Pass], label: i32) -> Option<Pass>
    ensures { result ≡ find (λ pass. int_eq pass.label label) passes.now }
{
    passes.iter().copied().find(|pass| pass.label == label)
}

/// The crossing of an under pass and an over pass, with a sign.
fn slots_between(under: Pass, over: Pass, sign: i32) -> Crossing
    ensures { result ≡ slots_between under over sign }
{
    if sign == 1 {
        Crossing([under.enters, over.leaves, under.leaves, over.enters])
    } else {
        Crossing([under.enters, over.enters, under.leaves, over.leaves])
    }
}
