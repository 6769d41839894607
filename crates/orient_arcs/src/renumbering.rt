//! Renumbering: crossings over arc names as a code.

ghost use Rattle.std.specs.Prelude.{◌≡◌, ◌≤◌, ◌<◌, ◌+◌, ◌*◌, ◌++◌, ◌∷◌, [], List, length, map, max, nat_eq, ℕ};
ghost use Rattle.std.specs.List.{find, position_or_len, list_any};
ghost use Rattle.kh_types.specs.declared.limits.TheConstants.{ARCS, CROSSINGS};
ghost use Rattle.code_passes.specs.Passes.{Pass, no_pass};
ghost use Rattle.code_passes.specs.Parts.{ArePaired, is_positive_at, over_pass, passes_at, passes_through, slots_in, under_pass};
ghost use Rattle.orient_arcs.specs.Renumbered.{AreInOrder, bound_of, entering, follows, is_in, label_entered, number_in, order_of, renamed_crossing, renumber, walk};
ghost use Rattle.orient_arcs.specs.Steps.{is_new, is_turned, order_below, start_of};

use crate::parts::Parts;
use crate::passes::passes_through;
use arrayvec::ArrayVec;
use code_passes::Pass;
use kh_types::{ARCS, CROSSINGS, Crossing, RawCode};

/// The code of some parts: components in the order of their least names, each numbered along its
/// direction from its least name on; one of two arcs that is over at both its crossings begins with
/// the arc that enters the first listed of them.
pub fn renumber(parts: &Parts) -> RawCode
    requires { ArePaired parts.now }
    ensures code { result ≡ renumber parts.now }
    ensures order { (order : List ℕ) × AreInOrder parts.now order ×
        (result.crossings ≡ map (renamed_crossing (number_in order)) parts.now.crossings) }
{
    let passes = passes_through(parts);
    let order = order_of(parts, &passes);
    RawCode {
        crossings: crossings_in(parts, &order),
        loops: parts.loops,
    }
}

/// The crossings under their new numbers.
#[tactic(auto, using(crate::proofs::StepLemmas::map_take_more))]
fn crossings_in(parts: &Parts, order: &[u8]) -> ArrayVec<Crossing, CROSSINGS>
    requires { length order.now ≤ ARCS }
    ensures { result.items ≡ map (renamed_crossing (number_in order.now)) parts.now.crossings }
{
    let mut crossings = ArrayVec::new();
    let old = parts.crossings.as_slice();
    'crossings: for crossing in old {
        crossings.push(renamed(order, *crossing));
    }
    crossings
}

/// A crossing under its new numbers.
fn renamed(order: &[u8], slots: Crossing) -> Crossing
    requires { length order.now ≤ ARCS }
    ensures { result ≡ renamed_crossing (number_in order.now) slots }
{
    Crossing([
        number_in(order, slots.0[0]),
        number_in(order, slots.0[1]),
        number_in(order, slots.0[2]),
        number_in(order, slots.0[3]),
    ])
}

/// The new number of a name.
fn number_in(order: &[u8], name: u8) -> u8
    requires { length order.now ≤ ARCS }
    ensures { result ≡ number_in order.now name }
{
    place_of(order, name) as u8 + 1
}

fn place_of(order: &[u8], name: u8) -> usize
    ensures place { result ≡ position_or_len (nat_eq name) order.now }
    ensures within { result ≤ length order.now }
{
    order.iter().take_while(|other| name != **other).count()
}

/// The pass that enters on a name.
fn entering(passes: &[Pass], name: u8) -> Pass
    ensures { result ≡ entering passes.now name }
{
    pass_on(passes, name).unwrap_or(Pass::default())
}

fn pass_on(passes: &[Pass], name: u8) -> Option<Pass>
    ensures { result ≡ find (λ (pass : Pass). nat_eq pass.enters name) passes.now }
{
    passes.iter().copied().find(|pass| pass.enters == name)
}

/// The name that follows a name.
fn follows(passes: &[Pass], name: u8) -> u8
    ensures { result ≡ follows passes.now name }
{
    entering(passes, name).leaves
}

/// The label of the pass that a name enters.
fn label_entered(passes: &[Pass], name: u8) -> i32
    ensures { result ≡ label_entered passes.now name }
{
    entering(passes, name).label
}

/// A number above all names.
#[tactic(auto, using(crate::proofs::StepLemmas::bound_of_push))]
fn bound_of(passes: &[Pass]) -> usize
    ensures bound { result ≡ bound_of passes.now }
    ensures few { result ≤ 256 }
{
    let mut bound = 0;
    'passes: for pass in passes {
        bound = raised(bound, *pass);
    }
    bound
}

/// A bound that is also above the name on which a pass enters.
fn raised(bound: usize, pass: Pass) -> usize
    requires { bound ≤ 256 }
    ensures raised { result ≡ max bound (pass.enters + 1) }
    ensures few { result ≤ 256 }
{
    bound.max(usize::from(pass.enters) + 1)
}

/// All names in the order of their new numbers.
fn order_of(parts: &Parts, passes: &[Pass]) -> ArrayVec<u8, ARCS>
    requires paired { ArePaired parts.now }
    requires passes { passes.now ≡ passes_through parts.now }
    requires few { length parts.now.crossings ≤ CROSSINGS }
    ensures order { result.items ≡ order_of passes.now }
    ensures few { length result.items ≤ ARCS }
{
    let bound = bound_of(passes);
    let mut order = ArrayVec::new();
    'names: for name in 0..bound {
        push_component(&mut order, parts, passes, name as u8);
    }
    order
}

/// Adds the component of a name, where it stands and is in none so far.
fn push_component(order: &mut ArrayVec<u8, ARCS>, parts: &Parts, passes: &[Pass], name: u8)
    requires paired { ArePaired parts.now }
    requires passes { passes.now ≡ passes_through parts.now }
    requires few { length parts.now.crossings ≤ CROSSINGS }
    requires order { order.old.items ≡ order_below passes.now name }
    ensures { order.new.items ≡ order_below passes.now (name + 1) }
{
    if is_new(order, passes, name) {
        push_walk(order, passes, start_of(passes, name));
    }
}

/// Whether a name stands, and is in no component so far.
fn is_new(order: &[u8], passes: &[Pass], name: u8) -> bool
    ensures { result ≡ is_new passes.now order.now name }
{
    stands(passes, name) && !is_in(order, name)
}

/// Whether a pass enters on a name.
#[tactic(auto, using(crate::proofs::StepLemmas::is_in_map))]
fn stands(passes: &[Pass], name: u8) -> bool
    ensures { result ≡ is_in (map (λ (pass : Pass). pass.enters) passes.now) name }
{
    enters_some(passes, name)
}

fn enters_some(passes: &[Pass], name: u8) -> bool
    ensures { result ≡ list_any (λ (pass : Pass). nat_eq name pass.enters) passes.now }
{
    passes.iter().copied().any(|pass| name == pass.enters)
}

/// Whether a name is in a list.
fn is_in(names: &[u8], name: u8) -> bool
    ensures { result ≡ is_in names.now name }
{
    names.iter().any(|other| name == *other)
}

/// The name with which the component of its least name begins.
fn start_of(passes: &[Pass], name: u8) -> u8
    ensures { result ≡ start_of passes.now name }
{
    if is_turned(passes, name) {
        follows(passes, name)
    } else {
        name
    }
}

/// Whether a name and its next are over at both their crossings, and the next enters the first
/// listed.
fn is_turned(passes: &[Pass], name: u8) -> bool
    ensures { result ≡ is_turned passes.now name }
{
    let next = follows(passes, name);
    let label = label_entered(passes, name);
    let next_label = label_entered(passes, next);
    next != name
        && follows(passes, next) == name
        && label > 0
        && next_label > 0
        && next_label < label
}

/// Adds the names from a name on, until it comes back to it.
fn push_walk(order: &mut ArrayVec<u8, ARCS>, passes: &[Pass], first: u8)
    requires { length order.old.items
        + length (walk (follows passes.now) first (length passes.now) first) ≤ ARCS }
    ensures { order.new.items ≡ order.old.items
        ++ walk (follows passes.now) first (length passes.now) first }
{
    let mut name = first;
    'steps: for _ in 0..passes.len() {
        order.push(name);
        name = follows(passes, name);
        if name == first {
            return;
        }
    }
}
