//! Components, and the arc that follows an arc.

ghost use Rattle.std.specs.Prelude.{◌≡◌, ◌+◌, ◌≤◌, ◌++◌, ◌*◌, length};
ghost use Rattle.std.specs.List.{flat_map};
ghost use Rattle.kh_types.specs.declared.limits.TheConstants.{CROSSINGS, ARCS};
ghost use Rattle.kh_types.specs.Components.{passes_of, components_of, component_of, component_count, arcs_in, is_interval, next_in};

use crate::classes::{CLASS_MEMBERS, class_of, classes_of, is_least};
use crate::code::Crossing;
use crate::limits::{ARCS, CROSSINGS};
use arrayvec::ArrayVec;

/// The component of each number up to 2n, by its least arc; the number 0 is no arc and stands
/// alone. Source: Knot Atlas, "Planar Diagrams".
pub fn components_of(crossings: &[Crossing]) -> ArrayVec<u8, CLASS_MEMBERS>
    requires { length crossings.now ≤ CROSSINGS }
    ensures { result.items ≡ components_of crossings.now }
{
    classes_of(2 * crossings.len() + 1, &all_passes(crossings))
}

/// The two passes of each crossing, each by the arcs that it joins.
fn all_passes(crossings: &[Crossing]) -> ArrayVec<(u8, u8), ARCS>
    requires { length crossings.now ≤ CROSSINGS }
    ensures { result.items ≡ flat_map passes_of crossings.now }
{
    let mut passes = ArrayVec::new();
    for crossing in crossings {
        push_passes(&mut passes, *crossing);
    }
    passes
}

/// Adds the two passes of a crossing.
fn push_passes(passes: &mut ArrayVec<(u8, u8), ARCS>, crossing: Crossing)
    requires { length passes.old.items + 2 ≤ ARCS }
    ensures added { passes.new.items ≡ passes.old.items ++ passes_of crossing }
    ensures count { length passes.new.items ≡ length passes.old.items + 2 }
{
    passes.push((crossing.0[0], crossing.0[2]));
    passes.push((crossing.0[1], crossing.0[3]));
}

/// The number of components, given the component of each arc.
pub fn component_count(crossings: &[Crossing], components: &[u8]) -> usize
    requires crossings { length crossings.now ≤ CROSSINGS }
    requires components { components.now ≡ components_of crossings.now }
    ensures count { result ≡ component_count crossings.now }
    ensures within { result ≤ ARCS }
{
    (1..2 * crossings.len() + 1)
        .filter(|arc| is_least(components, *arc as u8))
        .count()
}

/// How many arcs a component has, which is given by its least arc.
pub fn arcs_in(components: &[u8], first: u8) -> usize
    ensures arcs { result ≡ arcs_in components.now first }
    ensures within { result ≤ length components.now }
{
    components
        .iter()
        .filter(|component| first == **component)
        .count()
}

/// Whether the numbers from the least arc of a component on, as many as it has arcs, are its arcs.
pub fn is_interval(components: &[u8], first: u8) -> bool
    ensures { result ≡ is_interval components.now first }
{
    let first_arc = usize::from(first);
    let mut arcs = first_arc..first_arc + arcs_in(components, first);
    arcs.all(|arc| class_of(components, arc) == first)
}

/// The arc that follows an arc, given the component of each number.
pub fn next_in(components: &[u8], arc: u8) -> u16
    ensures { result ≡ next_in components.now arc }
{
    let component = class_of(components, usize::from(arc));
    if class_of(components, usize::from(arc) + 1) == component {
        u16::from(arc) + 1
    } else {
        u16::from(component)
    }
}
