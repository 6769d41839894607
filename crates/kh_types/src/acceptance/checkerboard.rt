//! The checkerboard condition.

ghost use Rattle.std.specs.Prelude.{◌≡◌, ◌^◌, ◌≤◌, ◌<◌, length, slice_index};
ghost use Rattle.kh_types.specs.declared.limits.TheConstants.{CROSSINGS};
ghost use Rattle.kh_types.specs.Code.{IsArc, IsCrossing};
ghost use Rattle.kh_types.specs.Classes.{joined};
ghost use Rattle.kh_types.specs.Checkerboard.{equation_of};
ghost use Rattle.kh_types.specs.Colouring.{tie_of, is_coloured, contradicts, changed_colour, colour_after, colours_after};
ghost use Rattle.kh_types.specs.Acceptance.{checkerboard_fault};

use crate::acceptance::darts::{first_dart, partner};
use crate::classes::{CLASS_MEMBERS, class_of, join, numbers_below};
use crate::code::Crossing;
use crate::fault::CodeFault;
use crate::limits::CROSSINGS;
use arrayvec::ArrayVec;

/// The equation of an arc: the bits of the crossings at its two ends and the sum of its slots there
/// are odd together.
#[derive(Clone, Copy, Default)]
pub struct Equation {
    crossing: u8,
    other: u8,
    slots: u8,
}

/// The least arc up to which the equations have no solution. Each crossing has a colour, its bit,
/// and the crossings that the equations so far tie to each other are in one class, in which each
/// colour follows from any other. An equation within a class is solved by its colours or by none;
/// one between two classes is solved once the colours of one of them are all changed.
pub fn checkerboard_fault(crossings: &[Crossing]) -> Option<CodeFault>
    requires { length crossings.now ≤ CROSSINGS }
    ensures { result ≡ checkerboard_fault crossings.now }
{
    let mut classes = numbers_below(crossings.len());
    let mut colours = any_colours(crossings.len());
    for place in 0..2 * crossings.len() {
        let arc = place as u8 + 1;
        let equation = equation_of(crossings, arc);
        if contradicts(&classes, &colours, equation) {
            return Some(CodeFault::Checkerboard { arc });
        }
        colours = colours_after(&classes, &colours, equation);
        classes = tied(classes, equation);
    }
    None
}

/// Some colours, of as many crossings.
fn any_colours(count: usize) -> ArrayVec<u8, CROSSINGS>
    requires { count ≤ CROSSINGS }
    ensures { length result.items ≡ count }
{
    let mut colours = ArrayVec::new();
    for place in 0..count {
        colours.push((place % 2) as u8);
    }
    colours
}

/// What an equation ties: the places of its two crossings.
fn tie_of(equation: Equation) -> (u8, u8)
    ensures { result ≡ tie_of equation }
{
    (
        equation.crossing.saturating_sub(1),
        equation.other.saturating_sub(1),
    )
}

/// The classes after an equation: those of its two crossings become one.
fn tied(classes: ArrayVec<u8, CLASS_MEMBERS>, equation: Equation) -> ArrayVec<u8, CLASS_MEMBERS>
    ensures { result.items ≡ joined classes.items (tie_of equation) }
{
    let mut classes = classes;
    join(&mut classes, tie_of(equation));
    classes
}

/// Whether colours solve an equation.
fn is_coloured(colours: &[u8], equation: Equation) -> bool
    ensures { result ≡ is_coloured colours.now equation }
{
    let (first, other) = tie_of(equation);
    let slots = u16::from(equation.slots);
    (colour_at(colours, first) + (colour_at(colours, other) + slots)) % 2 == 1
}

/// The colour at a place.
fn colour_at(colours: &[u8], place: u8) -> u16
    ensures colour { result ≡ slice_index colours.now place }
    ensures within { result < 2 ^ 8 }
{
    u16::from(colours.get(usize::from(place)).copied().unwrap_or(0))
}

/// Whether an equation contradicts those before it: its crossings are in one class, and the colours
/// do not solve it.
fn contradicts(classes: &[u8], colours: &[u8], equation: Equation) -> bool
    ensures { result ≡ contradicts classes.now colours.now equation }
{
    let (first, other) = tie_of(equation);
    let is_tied = class_of(classes, usize::from(first)) == class_of(classes, usize::from(other));
    let is_coloured = is_coloured(colours, equation);
    !is_coloured && is_tied
}

/// The colours after an equation: where they do not solve it, the class of its other crossing
/// changes its colours.
#[tactic(auto, using(crate::proofs::Ranges::range_steps))]
fn colours_after(classes: &[u8], colours: &[u8], equation: Equation) -> ArrayVec<u8, CROSSINGS>
    requires { length colours.now ≤ CROSSINGS }
    ensures { result.items ≡ colours_after classes.now colours.now equation }
{
    let mut changed = ArrayVec::new();
    for place in 0..colours.len() {
        changed.push(colour_after(classes, colours, equation, place as u8));
    }
    changed
}

/// The colour at a place after an equation.
fn colour_after(classes: &[u8], colours: &[u8], equation: Equation, place: u8) -> u8
    ensures { result ≡ colour_after classes.now colours.now equation place }
{
    let (_, other) = tie_of(equation);
    let is_turned = class_of(classes, usize::from(place)) == class_of(classes, usize::from(other));
    let is_coloured = is_coloured(colours, equation);
    let colour = colours.get(usize::from(place)).copied().unwrap_or(0);
    changed_colour(!is_coloured && is_turned, colour)
}

/// A colour, or the other one where it changes.
fn changed_colour(changes: bool, colour: u8) -> u8
    ensures { result ≡ changed_colour changes colour }
{
    if changes { 1 - colour % 2 } else { colour }
}

/// The equation of an arc.
fn equation_of(crossings: &[Crossing], arc: u8) -> Equation
    requires crossings { length crossings.now ≤ CROSSINGS }
    requires arc { IsArc crossings.now arc }
    ensures equation { result ≡ equation_of crossings.now arc }
    ensures crossing { IsCrossing crossings.now result.crossing }
    ensures other { IsCrossing crossings.now result.other }
{
    let dart = first_dart(crossings, arc);
    let other = partner(crossings, dart);
    Equation {
        crossing: dart.crossing,
        other: other.crossing,
        slots: dart.slot + other.slot,
    }
}
