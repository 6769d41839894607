//! Prints the code of a diagram as a planar diagram text.

ghost use Rattle.std.specs.Prelude.{◌≡◌, ◌≤◌, ◌++◌, All, length, string_bytes, IfOk, OnOk, Ok};
ghost use Rattle.pd_code.specs.Printing.{HasFourSlots, crossing_item, item_text, items_of_code, listed_text, loop_item, pd_text, text_of_items};
ghost use Rattle.pd_code.specs.Reading.{IsPdReading};

use crate::item::Item;
use kh_types::{CROSSINGS, Crossing, Diagram, LOOPS, NoMemory};
use std::alloc::Global;

/// The text of a diagram: its crossings in order and then its loops, by the names that follow
/// those of the arcs.
/// Source: Knot Atlas, "Planar Diagrams"; the spaces and the loops are this project's rule.
pub fn print_pd(alloc: Global, diagram: &Diagram) -> Result<Vec<u8>, NoMemory>
    ensures text { IfOk result (λ text. text.items ≡ pd_text diagram.now) }
    ensures reads_back { diagram.now.loops ≤ LOOPS →
        IfOk result (λ text. IsPdReading text.items (Ok diagram.now)) }
{
    let items = items_of_code(alloc, diagram)?;
    let text = text_of_items(alloc, &items)?;
    Ok(text.into_bytes())
}

/// The items of a diagram.
fn items_of_code(alloc: Global, diagram: &Diagram) -> Result<Vec<Item>, NoMemory>
    ensures items { IfOk result (λ items. items.items ≡ items_of_code diagram.now) }
    ensures four { OnOk result (All HasFourSlots diagram.now.crossings) }
    ensures few { OnOk result (length diagram.now.crossings ≤ CROSSINGS) }
{
    let mut items = Vec::new(alloc);
    for crossing in diagram.crossings() {
        items.push(crossing_item(crossing))?;
    }
    let first = 2 * diagram.count() + 1;
    for name in first..first + diagram.loops() {
        items.push(loop_item(name))?;
    }
    Ok(items)
}

/// The item of a crossing.
fn crossing_item(crossing: &Crossing) -> Item
    ensures item { result ≡ crossing_item crossing.now }
    ensures four { HasFourSlots crossing.now }
{
    let [i, j, k, l] = crossing.0;
    Item::Crossing(i.into(), j.into(), k.into(), l.into())
}

/// The item of a loop.
fn loop_item(name: u8) -> Item
    ensures { result ≡ loop_item name }
{
    Item::Loop(name.into())
}

/// The text that lists items.
fn text_of_items(alloc: Global, items: &[Item]) -> Result<String, NoMemory>
    ensures { IfOk result (λ text. string_bytes text ≡ text_of_items items.now) }
{
    let mut text = format!(in alloc; "PD[")?;
    push_items(alloc, &mut text, items)?;
    text.push_str("]")?;
    Ok(text)
}

/// Adds items in print, with a comma and a space between any two.
fn push_items(alloc: Global, text: &mut String, items: &[Item]) -> Result<(), NoMemory>
    ensures { OnOk result (
        string_bytes text.new ≡ string_bytes text.old ++ listed_text items.now) }
{
    let Some((first, others)) = items.split_first() else {
        return Ok(());
    };
    push_item(alloc, text, first)?;
    for item in others {
        text.push_str(", ")?;
        push_item(alloc, text, item)?;
    }
    Ok(())
}

/// Adds an item in print.
fn push_item(alloc: Global, text: &mut String, item: &Item) -> Result<(), NoMemory>
    ensures { OnOk result (string_bytes text.new ≡ string_bytes text.old ++ item_text item.now) }
{
    let item = item_text(alloc, item)?;
    text.push_str(item.as_str())?;
    Ok(())
}

/// An item in print.
fn item_text(alloc: Global, item: &Item) -> Result<String, NoMemory>
    ensures { IfOk result (λ text. string_bytes text ≡ item_text item.now) }
{
    let text = match item {
        Item::Crossing(i, j, k, l) => format!(in alloc; "X[{i}, {j}, {k}, {l}]")?,
        Item::Loop(n) => format!(in alloc; "Loop[{n}]")?,
    };
    Ok(text)
}
