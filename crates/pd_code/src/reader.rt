//! Reads the code of a diagram from a planar diagram text.

ghost use Rattle.std.specs.Prelude.{◌≡◌, ◌≢◌, ◌++◌, ◌≤◌, Err, IfOk, length};
ghost use Rattle.std.specs.Option.{option_to_list};
ghost use Rattle.pd_code.specs.Items.{crossings_among, loop_item_count, slots_of_item};
ghost use Rattle.pd_code.specs.Limits.{code_within};
ghost use Rattle.pd_code.specs.Reading.{IsPdReading};

use crate::item::{Item, is_loop_item, slots_of_item};
use crate::machine::items_of;
use crate::stop::PdStop;
use arrayvec::ArrayVec;
use kh_lex::tokens;
use kh_types::{CROSSINGS, Crossing, INPUT_BYTES, LOOPS, RawCode};
use std::alloc::Global;

/// Reads a planar diagram text. An arc number below 0 or above 255 is read as 0, which is no arc.
/// Source: Knot Atlas, "Planar Diagrams"; the loops and the limits are this project's rule.
pub fn read_pd(alloc: Global, text: &[u8]) -> Result<RawCode, PdStop>
    requires { length text.now ≤ INPUT_BYTES }
    ensures reads { result ≢ Err PdStop.NoMemory → IsPdReading text.now result }
    ensures crossings { IfOk result (λ code. length code.crossings ≤ CROSSINGS) }
    ensures loops { IfOk result (λ code. code.loops ≤ LOOPS) }
{
    let tokens = tokens(alloc, text)?;
    let items = items_of(alloc, text, &tokens)?;
    code_within(&items)
}

/// The code of items within the limits, or the first limit that they pass.
fn code_within(items: &[Item]) -> Result<RawCode, PdStop>
    requires { length items.now ≤ INPUT_BYTES }
    ensures code { result ≡ code_within items.now }
    ensures crossings { IfOk result (λ code. length code.crossings ≤ CROSSINGS) }
    ensures loops { IfOk result (λ code. code.loops ≤ LOOPS) }
{
    let crossings = crossing_count(items);
    if crossings > CROSSINGS {
        return Err(PdStop::CrossingLimit {
            count: crossings as u32,
        });
    }
    let loops = loop_item_count(items);
    if loops > LOOPS {
        return Err(PdStop::LoopLimit {
            count: loops as u32,
        });
    }
    Ok(RawCode {
        crossings: crossings_of(items),
        loops: loops as u8,
    })
}

/// The number of crossings among items.
fn crossing_count(items: &[Item]) -> usize
    ensures count { result ≡ length (crossings_among items.now) }
    ensures within { result ≤ length items.now }
{
    items.iter().filter_map(slots_of_item).count()
}

/// The number of loops among items.
fn loop_item_count(items: &[Item]) -> usize
    ensures count { result ≡ loop_item_count items.now }
    ensures within { result ≤ length items.now }
{
    items.iter().filter(|item| is_loop_item(item)).count()
}

/// The crossings among items, of which there are few enough.
fn crossings_of(items: &[Item]) -> ArrayVec<Crossing, CROSSINGS>
    requires { length (crossings_among items.now) ≤ CROSSINGS }
    ensures { result.items ≡ crossings_among items.now }
{
    let mut crossings = ArrayVec::new();
    for item in items {
        push_crossing(&mut crossings, item);
    }
    crossings
}

/// Adds the crossing that an item is, if it is one.
fn push_crossing(crossings: &mut ArrayVec<Crossing, CROSSINGS>, item: &Item)
    requires { length (crossings.old.items ++ option_to_list (slots_of_item item.now)) ≤ CROSSINGS }
    ensures { crossings.new.items ≡ crossings.old.items ++ option_to_list (slots_of_item item.now) }
{
    if let Some(crossing) = slots_of_item(item) {
        crossings.push(crossing);
    }
}
