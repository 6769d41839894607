//! The rules that make a code a directed code, and the limit on its components.

ghost use Rattle.std.specs.Prelude.{◌≡◌, ◌≤◌, length, nat_eq};
ghost use Rattle.std.specs.List.{list_any, range_with_len};
ghost use Rattle.kh_types.specs.Code.{arc_in, arcs, crossing_numbers, place_of, slots_of};
ghost use Rattle.kh_types.specs.declared.limits.TheConstants.{CROSSINGS};
ghost use Rattle.kh_types.specs.Components.{components_of};
ghost use Rattle.kh_types.specs.Acceptance.{first_of, arc_range_at, arc_range_fault, arc_times_at, arc_times_fault, interval_at, interval_fault, under_at, under_fault, over_at, over_fault, two_arc_at, two_arc_fault, components_fault, direction_fault};

use crate::acceptance::arcs::arc_at;
use crate::acceptance::components::{arcs_in, component_count, is_interval, next_in};
use crate::acceptance::darts::{arc_of, times};
use crate::acceptance::faults::{fault_if, first_of};
use crate::classes::{class_of, is_least};
use crate::code::{Crossing, RawCode};
use crate::dart::{Dart, dart_at};
use crate::fault::CodeFault;
use crate::limits::{COMPONENTS, CROSSINGS};

/// The first rule that a code breaks, of those that make it a directed code, given the component of
/// each arc.
pub fn direction_fault(crossings: &[Crossing], components: &[u8]) -> Option<CodeFault>
    requires crossings { length crossings.now ≤ CROSSINGS }
    requires components { components.now ≡ components_of crossings.now }
    ensures { result ≡ direction_fault crossings.now }
{
    arc_range_fault(crossings)
        .or_else(|| arc_times_fault(crossings))
        .or_else(|| interval_fault(crossings, components))
        .or_else(|| under_fault(crossings, components))
        .or_else(|| over_fault(crossings, components))
        .or_else(|| two_arc_fault(crossings, components))
}

/// The fault of a code with too many components and loops, given the component of each arc.
pub fn components_fault(raw: &RawCode, components: &[u8]) -> Option<CodeFault>
    requires { components.now ≡ components_of raw.now.crossings }
    ensures { result ≡ components_fault raw.now }
{
    let loops = raw.loops;
    let count = component_count(&raw.crossings, components) as u16 + u16::from(loops);
    fault_if(count > COMPONENTS as u16, CodeFault::Components { count })
}

/// The first slot that holds a number which is no arc.
fn arc_range_fault(crossings: &[Crossing]) -> Option<CodeFault>
    requires { length crossings.now ≤ CROSSINGS }
    ensures { result ≡ arc_range_fault crossings.now }
{
    first_of(0..4 * crossings.len() as u8, |place| {
        arc_range_at(crossings, place)
    })
}

/// The fault at one slot, by the place of its dart.
fn arc_range_at(crossings: &[Crossing], place: u8) -> Option<CodeFault>
    requires { length crossings.now ≤ CROSSINGS }
    ensures { result ≡ arc_range_at crossings.now place }
{
    let Dart { crossing, slot } = dart_at(place);
    let arc = usize::from(arc_at(crossings, crossing, slot));
    fault_if(
        arc < 1 || 2 * crossings.len() < arc,
        CodeFault::ArcRange { crossing, slot },
    )
}

/// The least arc that does not stand exactly twice.
fn arc_times_fault(crossings: &[Crossing]) -> Option<CodeFault>
    requires { length crossings.now ≤ CROSSINGS }
    ensures { result ≡ arc_times_fault crossings.now }
{
    first_of(1..2 * crossings.len() as u8 + 1, |arc| {
        arc_times_at(crossings, arc)
    })
}

/// The fault of one arc that does not stand exactly twice.
fn arc_times_at(crossings: &[Crossing], arc: u8) -> Option<CodeFault>
    requires { length crossings.now ≤ CROSSINGS }
    ensures { result ≡ arc_times_at crossings.now arc }
{
    let times = times(crossings, arc);
    fault_if(times != 2, CodeFault::ArcTimes { arc, times })
}

/// The least arc of a component that is no interval.
fn interval_fault(crossings: &[Crossing], components: &[u8]) -> Option<CodeFault>
    requires { length crossings.now ≤ CROSSINGS }
    ensures { result ≡ first_of (interval_at components.now) (arcs crossings.now) }
{
    first_of(1..2 * crossings.len() as u8 + 1, |arc| {
        interval_at(components, arc)
    })
}

/// The fault of one arc that is the least of a component which is no interval.
fn interval_at(components: &[u8], arc: u8) -> Option<CodeFault>
    ensures { result ≡ interval_at components.now arc }
{
    let least = is_least(components, arc);
    let interval = is_interval(components, arc);
    fault_if(least && !interval, CodeFault::Interval { arc })
}

/// The first crossing whose under pass does not go to the next arc.
fn under_fault(crossings: &[Crossing], components: &[u8]) -> Option<CodeFault>
    requires { length crossings.now ≤ CROSSINGS }
    ensures { result
        ≡ first_of (under_at crossings.now components.now) (crossing_numbers crossings.now) }
{
    first_of(1..crossings.len() as u8 + 1, |crossing| {
        under_at(crossings, components, crossing)
    })
}

/// The fault of one under pass.
fn under_at(crossings: &[Crossing], components: &[u8], crossing: u8) -> Option<CodeFault>
    ensures { result ≡ under_at crossings.now components.now crossing }
{
    let next = next_in(components, arc_at(crossings, crossing, 0));
    fault_if(
        u16::from(arc_at(crossings, crossing, 2)) != next,
        CodeFault::Under { crossing },
    )
}

/// The first crossing whose over pass joins no arc with its next.
fn over_fault(crossings: &[Crossing], components: &[u8]) -> Option<CodeFault>
    requires { length crossings.now ≤ CROSSINGS }
    ensures { result
        ≡ first_of (over_at crossings.now components.now) (crossing_numbers crossings.now) }
{
    first_of(1..crossings.len() as u8 + 1, |crossing| {
        over_at(crossings, components, crossing)
    })
}

/// The fault of one over pass.
fn over_at(crossings: &[Crossing], components: &[u8], crossing: u8) -> Option<CodeFault>
    ensures { result ≡ over_at crossings.now components.now crossing }
{
    let (start, end) = (
        arc_at(crossings, crossing, 1),
        arc_at(crossings, crossing, 3),
    );
    let (after_start, after_end) = (next_in(components, start), next_in(components, end));
    fault_if(
        u16::from(end) != after_start && u16::from(start) != after_end,
        CodeFault::Over { crossing },
    )
}

/// The first crossing that is the second of two under passes in one direction on a component of two
/// arcs.
fn two_arc_fault(crossings: &[Crossing], components: &[u8]) -> Option<CodeFault>
    requires { length crossings.now ≤ CROSSINGS }
    ensures { result
        ≡ first_of (two_arc_at crossings.now components.now) (crossing_numbers crossings.now) }
{
    first_of(1..crossings.len() as u8 + 1, |crossing| {
        two_arc_at(crossings, components, crossing)
    })
}

/// The fault of one under pass on a component of two arcs, where an earlier one comes in on the
/// same arc.
fn two_arc_at(crossings: &[Crossing], components: &[u8], crossing: u8) -> Option<CodeFault>
    ensures { result ≡ two_arc_at crossings.now components.now crossing }
{
    let incoming = arc_at(crossings, crossing, 0);
    let arcs = arcs_in(components, class_of(components, usize::from(incoming)));
    let repeated = comes_in_before(crossings, crossing, incoming);
    fault_if(arcs == 2 && repeated, CodeFault::TwoArc { crossing })
}

/// Whether a crossing listed before this one has an under pass that comes in on an arc.
fn comes_in_before(crossings: &[Crossing], crossing: u8, incoming: u8) -> bool
    ensures { result ≡ list_any
        (λ earlier. nat_eq (arc_in (slots_of crossings.now earlier) 0) incoming)
        (range_with_len 1 (place_of crossing)) }
{
    (1..crossing.max(1)).any(|earlier| arc_at(crossings, earlier, 0) == incoming)
}
