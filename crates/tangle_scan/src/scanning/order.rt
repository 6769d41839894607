//! An order of crossings that is mostly fast, and a diagram with its crossings in another order.
//! Any order is right, so contracts say no more than that it is one; which one is this project's
//! rule.

ghost use Rattle.std.specs.Prelude.{◌≡◌, ◌⊎◌, ◌<◌, ◌≤◌, length};
ghost use Rattle.order_laws.specs.Orders.{IsReordered, listed_by};
ghost use Rattle.kh_types.specs.declared.limits.TheConstants.{CROSSINGS};

use arrayvec::ArrayVec;
use kh_types::laws::diagrams::diagram_laws;
use kh_types::{CROSSINGS, Crossing, Diagram, RawCode};
use order_laws::laws::reordered_codes_are_accepted;

/// Crossings in some order.
type Crossings = ArrayVec<Crossing, CROSSINGS>;

/// For each number of an arc, whether one of its ends has been met.
type Ends = [bool; 256];

/// An order of crossings, and how much work it may be: the sum of 2 to the number of arcs that are
/// open after each crossing.
#[derive(Drop)]
struct Order {
    crossings: Crossings,
    work: u64,
}

/// The crossings of a diagram, in an order where each next one leaves the fewest arcs open: of
/// those equal one that touches most open arcs, else the first. Each crossing is tried as the first
/// of all, and the order taken that may be least work.
pub fn ordered(diagram: &Diagram) -> ArrayVec<Crossing, CROSSINGS>
    ensures { IsReordered diagram.now.crossings result.items }
{
    let mut best = ordered_from(diagram, 0);
    'starts: for start in 1..diagram.crossings().len() {
        best = lighter(best, ordered_from(diagram, start));
    }
    best.crossings
}

/// Of two orders that which may be less work.
fn lighter(one: Order, other: Order) -> Order
    ensures { (result ≡ one) ⊎ (result ≡ other) }
{
    if other.work < one.work { other } else { one }
}

/// The order that begins with the crossing at a place, or the last.
#[tactic(auto, using(crate::proofs::OrderLemmas::steps))]
fn ordered_from(diagram: &Diagram, start: usize) -> Order
    ensures { IsReordered diagram.now.crossings result.crossings.items }
{
    let mut left = diagram.to_raw().crossings;
    let mut made: Crossings = ArrayVec::new();
    let mut ends = [false; 256];
    let mut work = 0u64;
    'crossings: while !left.is_empty() {
        let place = if made.is_empty() {
            start.min(left.len() - 1)
        } else {
            next_place(&left, &ends)
        };
        let crossing = left.remove(place);
        meet(&mut ends, crossing);
        made.push(crossing);
        work = work.saturating_add(work_of(&ends));
    }
    Order {
        crossings: made,
        work,
    }
}

/// 2 to the number of arcs of which one end has been met.
fn work_of(ends: &Ends) -> u64 {
    let opened = ends.iter().filter(|met| **met).count();
    1 << opened.min(63)
}

/// The place of the crossing that comes next.
fn next_place(crossings: &[Crossing], ends: &Ends) -> usize
    requires { 0 < length crossings.now }
    ensures { result < length crossings.now }
{
    let mut best = 0;
    let mut least = cost(crossings[0], ends);
    'places: for place in 1..crossings.len() {
        let cost = cost(crossings[place], ends);
        if cost < least {
            best = place;
            least = cost;
        }
    }
    best
}

/// How many more arcs are open after a crossing, counted from -4, and, among those with equally
/// many, how few of its slots have arcs that were open.
fn cost(crossing: Crossing, ends: &Ends) -> u32 {
    let [a, b, c, d] = crossing.0;
    arc_cost(crossing, a, ends)
        + arc_cost(crossing, b, ends)
        + arc_cost(crossing, c, ends)
        + arc_cost(crossing, d, ends)
}

/// What the arc at a slot adds to the cost: five for each arc more that is open, and one where it
/// was not open.
fn arc_cost(crossing: Crossing, arc: u8, ends: &Ends) -> u32
    ensures { result ≤ 11 }
{
    if is_twice(crossing, arc) {
        6
    } else if ends[usize::from(arc)] {
        0
    } else {
        11
    }
}

/// Whether two slots of a crossing have an arc.
fn is_twice(crossing: Crossing, arc: u8) -> bool {
    crossing.0.iter().filter(|other| **other == arc).count() > 1
}

/// Marks the ends of a crossing's arcs as met.
fn meet(ends: &mut Ends, crossing: Crossing) {
    'slots: for slot in 0..4usize {
        let arc = usize::from(crossing.0[slot]);
        ends[arc] = !ends[arc];
    }
}

/// The diagram with its crossings in another order.
pub fn reordered(diagram: &Diagram, crossings: &[Crossing]) -> Diagram
    requires { IsReordered diagram.now.crossings crossings.now }
    ensures { result ≡ listed_by diagram.now crossings.now }
{
    reordered_codes_are_accepted();
    diagram_laws(diagram);
    Diagram::of_accepted(&RawCode {
        crossings: list_of(crossings),
        loops: diagram.loops(),
    })
}

fn list_of(crossings: &[Crossing]) -> ArrayVec<Crossing, CROSSINGS>
    requires { length crossings.now ≤ CROSSINGS }
    ensures { result.items ≡ crossings.now }
{
    let mut list = ArrayVec::new();
    for crossing in crossings {
        list.push(*crossing);
    }
    list
}
