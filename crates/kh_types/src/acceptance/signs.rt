//! The direction of over passes, and the signs of crossings.

ghost use Rattle.std.specs.Prelude.{◌≡◌, ◌≤◌, length, count_by, map};
ghost use Rattle.std.specs.List.{range_with_len};
ghost use Rattle.kh_types.specs.declared.limits.TheConstants.{CROSSINGS};
ghost use Rattle.kh_types.specs.Code.{arc_in, slots_of, crossing_numbers};
ghost use Rattle.kh_types.specs.Directions.{passes_under, passes_over, first_under, first_over, is_positive_by_next, is_positive_by_under, is_positive_by_order, is_positive_of_two, is_positive_in, is_positive, plus_count, positive_at, positive_in_at};

use crate::acceptance::arcs::arc_at;
use crate::acceptance::components::{arcs_in, components_of, next_in};
use crate::classes::class_of;
use crate::code::Crossing;
use crate::limits::CROSSINGS;
use arrayvec::ArrayVec;

/// Whether a crossing is positive, which it is where its over pass goes from slot 3 to slot 1.
pub fn is_positive(crossings: &[Crossing], crossing: u8) -> bool
    requires { length crossings.now ≤ CROSSINGS }
    ensures { result ≡ is_positive crossings.now crossing }
{
    is_positive_in(crossings, &components_of(crossings), crossing)
}

/// Whether each crossing is positive, in their order.
pub fn signs(crossings: &[Crossing]) -> ArrayVec<bool, CROSSINGS>
    requires { length crossings.now ≤ CROSSINGS }
    ensures { result.items
        ≡ map (positive_at crossings.now) (range_with_len 0 (length crossings.now)) }
{
    signs_in(crossings, &components_of(crossings))
}

/// Whether each crossing is positive, given the component of each arc.
#[tactic(auto, using(crate::proofs::Ranges::range_steps))]
fn signs_in(crossings: &[Crossing], components: &[u8]) -> ArrayVec<bool, CROSSINGS>
    requires { length crossings.now ≤ CROSSINGS }
    ensures { result.items ≡ map (positive_in_at crossings.now components.now)
        (range_with_len 0 (length crossings.now)) }
{
    let mut signs = ArrayVec::new();
    'places: for place in 0..crossings.len() {
        signs.push(is_positive_in(crossings, components, place as u8 + 1));
    }
    signs
}

/// The number of positive crossings.
pub fn plus_count(crossings: &[Crossing]) -> u8
    requires { length crossings.now ≤ CROSSINGS }
    ensures { result ≡ plus_count crossings.now }
{
    plus_count_in(crossings, &components_of(crossings))
}

/// The number of positive crossings, given the component of each arc.
#[tactic(auto, using(crate::proofs::Ranges::count_from_one))]
fn plus_count_in(crossings: &[Crossing], components: &[u8]) -> u8
    requires { length crossings.now ≤ CROSSINGS }
    ensures { result ≡ count_by (is_positive_in crossings.now components.now)
        (crossing_numbers crossings.now) }
{
    let mut count = 0;
    for place in 0..crossings.len() {
        if is_positive_in(crossings, components, place as u8 + 1) {
            count += 1;
        }
    }
    count
}

/// Whether a crossing is positive, given the component of each arc.
fn is_positive_in(crossings: &[Crossing], components: &[u8], crossing: u8) -> bool
    requires { length crossings.now ≤ CROSSINGS }
    ensures { result ≡ is_positive_in crossings.now components.now crossing }
{
    let component = class_of(components, usize::from(arc_at(crossings, crossing, 1)));
    if arcs_in(components, component) >= 3 {
        is_positive_by_next(crossings, components, crossing)
    } else {
        is_positive_of_two(crossings, components, crossing)
    }
}

/// In a component of three arcs or more an over pass goes from an arc to its next.
fn is_positive_by_next(crossings: &[Crossing], components: &[u8], crossing: u8) -> bool
    ensures { result ≡ is_positive_by_next components.now (slots_of crossings.now crossing) }
{
    u16::from(arc_at(crossings, crossing, 1)) == next_in(components, arc_at(crossings, crossing, 3))
}

/// In a component of two arcs the over pass goes against an under pass, or else by the order of the
/// arcs.
fn is_positive_of_two(crossings: &[Crossing], components: &[u8], crossing: u8) -> bool
    requires { length crossings.now ≤ CROSSINGS }
    ensures { result ≡ is_positive_of_two crossings.now components.now crossing }
{
    let component = class_of(components, usize::from(arc_at(crossings, crossing, 1)));
    match first_under(crossings, components, component) {
        Some(under) => arc_at(crossings, crossing, 3) == arc_at(crossings, under, 2),
        None => {
            let first = first_over(crossings, components, component).unwrap_or(0);
            is_positive_by_order(crossings, crossing, first == crossing)
        }
    }
}

/// At the first of two over passes the component goes from the smaller to the greater arc, and back
/// at the other.
fn is_positive_by_order(crossings: &[Crossing], crossing: u8, is_first: bool) -> bool
    ensures { result ≡ is_positive_by_order (slots_of crossings.now crossing) is_first }
{
    let (start, end) = (
        arc_at(crossings, crossing, 3),
        arc_at(crossings, crossing, 1),
    );
    if is_first { start < end } else { end < start }
}

/// The first crossing at which a component passes under.
fn first_under(crossings: &[Crossing], components: &[u8], component: u8) -> Option<u8>
    requires { length crossings.now ≤ CROSSINGS }
    ensures { result ≡ first_under crossings.now components.now component }
{
    (1..crossings.len() as u8 + 1).find(|crossing| passes_under(
        crossings, components, component, *crossing,
    ))
}

/// The first crossing at which a component passes over.
fn first_over(crossings: &[Crossing], components: &[u8], component: u8) -> Option<u8>
    requires { length crossings.now ≤ CROSSINGS }
    ensures { result ≡ first_over crossings.now components.now component }
{
    (1..crossings.len() as u8 + 1).find(|crossing| passes_over(
        crossings, components, component, *crossing,
    ))
}

/// Whether the under pass of a crossing is in a component.
fn passes_under(crossings: &[Crossing], components: &[u8], component: u8, crossing: u8) -> bool
    ensures { result ≡ passes_under crossings.now components.now component crossing }
{
    class_of(components, usize::from(arc_at(crossings, crossing, 0))) == component
}

/// Whether the over pass of a crossing is in a component.
fn passes_over(crossings: &[Crossing], components: &[u8], component: u8, crossing: u8) -> bool
    ensures { result ≡ passes_over crossings.now components.now component crossing }
{
    class_of(components, usize::from(arc_at(crossings, crossing, 1))) == component
}
