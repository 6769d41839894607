//! Prints the code of a diagram as a signed Gauss text.

ghost use Rattle.std.specs.Prelude.{◌≡◌, ◌≤◌, ◌++◌, All, IfOk, Ok, OnOk, length, map, string_bytes};
ghost use Rattle.std.specs.Fmt.{signed_decimal};
ghost use Rattle.gauss_code.specs.Printing.{body_of_groups, body_text, gauss_text, group_text, listing_of, numbers_text};
ghost use Rattle.gauss_code.specs.Reading.{IsGaussReading};

use crate::diagram_labels::{component_labels, signs_of};
use kh_types::{Crossing, Diagram, LOOPS, NoMemory};
use std::alloc::Global;

/// The signed Gauss text of a diagram: its components in order, each from the pass that its least
/// arc enters, its loops, and the signs of its crossings. Source: Knot Atlas, "Gauss Codes"; the
/// braces, the signs and the spaces are this project's rule.
pub fn print_gauss(alloc: Global, diagram: &Diagram) -> Result<Vec<u8>, NoMemory>
    ensures text { IfOk result (λ text. text.items ≡ gauss_text diagram.now) }
    ensures reads_back { diagram.now.loops ≤ LOOPS →
        IfOk result (λ text. IsGaussReading text.items (Ok diagram.now)) }
{
    read_crossings(diagram.crossings());
    let text = gauss_text(alloc, diagram)?;
    Ok(text.into_bytes())
}

/// The same as a string.
fn gauss_text(alloc: Global, diagram: &Diagram) -> Result<String, NoMemory>
    ensures { IfOk result (λ text. string_bytes text ≡ gauss_text diagram.now) }
{
    let mut text = format!(in alloc; "GaussCode[")?;
    push_body(alloc, &mut text, diagram)?;
    text.push_str("] Signs[")?;
    push_numbers(alloc, &mut text, &signs_of(diagram))?;
    text.push_str("]")?;
    Ok(text)
}

/// Each crossing has four slots by its type, which is known of one once it is read.
fn read_crossings(crossings: &[Crossing])
    ensures { All (λ slots. length slots ≡ 4) crossings.now }
{
    for crossing in crossings {
        let _slots: [u8; 4] = crossing.0;
    }
}

/// Adds the components and loops of a diagram: each as a group, but one component alone without
/// braces.
fn push_body(alloc: Global, text: &mut String, diagram: &Diagram) -> Result<(), NoMemory>
    ensures { OnOk result (
        string_bytes text.new ≡ string_bytes text.old ++ body_text (listing_of diagram.now).body) }
{
    let mut groups = component_labels(alloc, diagram)?;
    if groups.len() == 1 && diagram.loops() == 0 {
        return push_numbers(alloc, text, &groups[0]);
    }
    'loops: for _ in 0..diagram.loops() {
        groups.push(Vec::new(alloc))?;
    }
    push_groups(alloc, text, &groups)
}

/// Adds groups, with a comma and a space between any two.
fn push_groups(alloc: Global, text: &mut String, groups: &[Vec<i8>]) -> Result<(), NoMemory>
    ensures { OnOk result (string_bytes text.new ≡ string_bytes text.old
        ++ body_text (body_of_groups (map (λ group. group.items) groups.now))) }
{
    let Some((first, others)) = groups.split_first() else {
        return Ok(());
    };
    push_group(alloc, text, first)?;
    for group in others {
        text.push_str(", ")?;
        push_group(alloc, text, group)?;
    }
    Ok(())
}

/// Adds a group.
fn push_group(alloc: Global, text: &mut String, labels: &[i8]) -> Result<(), NoMemory>
    ensures { OnOk result (string_bytes text.new ≡ string_bytes text.old ++ group_text labels.now) }
{
    text.push_str("{")?;
    push_numbers(alloc, text, labels)?;
    text.push_str("}")?;
    Ok(())
}

/// Adds numbers, with a comma and a space between any two.
fn push_numbers(alloc: Global, text: &mut String, numbers: &[i8]) -> Result<(), NoMemory>
    ensures { OnOk result (
        string_bytes text.new ≡ string_bytes text.old ++ numbers_text numbers.now) }
{
    let Some((first, others)) = numbers.split_first() else {
        return Ok(());
    };
    push_number(alloc, text, *first)?;
    for number in others {
        text.push_str(", ")?;
        push_number(alloc, text, *number)?;
    }
    Ok(())
}

/// Adds a number.
fn push_number(alloc: Global, text: &mut String, number: i8) -> Result<(), NoMemory>
    ensures { OnOk result (
        string_bytes text.new ≡ string_bytes text.old ++ signed_decimal number) }
{
    let number = format!(in alloc; "{number}")?;
    text.push_str(number.as_str())?;
    Ok(())
}
