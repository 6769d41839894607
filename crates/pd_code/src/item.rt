//! What a planar diagram text lists.

ghost use Rattle.std.specs.Prelude.{◌≡◌};
ghost use Rattle.pd_code.specs.Items.{is_loop_item, signed_arc_named, slots_of_item};

use kh_types::Crossing;

/// What a text lists: a crossing, or a crossingless loop.
/// Source: Knot Atlas, "Planar Diagrams"; the loops are this project's rule.
#[derive(Clone, Copy, Debug, PartialEq, Eq)]
pub enum Item {
    /// A crossing by the numbers of its arcs, counterclockwise from the incoming under arc.
    Crossing(i32, i32, i32, i32),
    /// A crossingless loop by its number.
    Loop(i32),
}

/// Whether an item is a loop.
pub fn is_loop_item(item: &Item) -> bool
    ensures { result ≡ is_loop_item item.now }
{
    match item {
        Item::Crossing(..) => false,
        Item::Loop(_) => true,
    }
}

/// The crossing that an item is, if it is one.
pub fn slots_of_item(item: &Item) -> Option<Crossing>
    ensures { result ≡ slots_of_item item.now }
{
    match *item {
        Item::Crossing(i, j, k, l) => Some(Crossing([
            signed_arc_named(i),
            signed_arc_named(j),
            signed_arc_named(k),
            signed_arc_named(l),
        ])),
        Item::Loop(_) => None,
    }
}

/// The arc that a number names; 0, which is no arc, for a number below 0 or above 255.
fn signed_arc_named(number: i32) -> u8
    ensures { result ≡ signed_arc_named number }
{
    u8::try_from(number).unwrap_or(0)
}
