//! Triangles, searched slot by slot.

ghost use Rattle.std.specs.Prelude.{◌≡◌, ◌<◌, ◌&&◌, ◌||◌, IfSome, nat_eq, not, unwrap_or};
ghost use Rattle.kh_types.specs.Code.{IsCrossing};
ghost use Rattle.kh_types.specs.Darts.{dart_count};
ghost use Rattle.slide_laws.specs.Triangles.{dart_at_slot, has_heights, has_triangle, is_at_crossing, is_slidable_at, is_triangle, slide_slot, step};

use kh_types::laws::diagrams::diagram_laws;
use kh_types::{Diagram, turned};

/// Three crossings by their numbers.
#[derive(Clone, Copy)]
pub(crate) struct Corners {
    pub first: u8,
    pub second: u8,
    pub third: u8,
}

/// Whether there is a triangle at three crossings.
#[tactic(auto, using(crate::proofs::Fours::list_any_four))]
pub(crate) fn has_triangle(diagram: &Diagram, corners: Corners) -> bool
    requires { IsCrossing diagram.now.crossings corners.first }
    ensures { result
        ≡ has_triangle diagram.now.crossings corners.first corners.second corners.third }
{
    let zero = is_triangle(diagram, corners, 0);
    let one = is_triangle(diagram, corners, 1);
    let two = is_triangle(diagram, corners, 2);
    let three = is_triangle(diagram, corners, 3);
    zero || (one || (two || three))
}

/// The least slot of the first crossing at whose triangle a slide can be made.
#[tactic(auto, using(crate::proofs::Fours::find_four))]
pub(crate) fn slide_slot(diagram: &Diagram, corners: Corners) -> Option<u8>
    requires { IsCrossing diagram.now.crossings corners.first }
    ensures slot { result
        ≡ slide_slot diagram.now.crossings corners.first corners.second corners.third }
    ensures below { IfSome result (λ slot. slot < 4) }
{
    let zero = is_slidable_at(diagram, corners, 0);
    let one = is_slidable_at(diagram, corners, 1);
    let two = is_slidable_at(diagram, corners, 2);
    let three = is_slidable_at(diagram, corners, 3);
    if zero {
        Some(0)
    } else if one {
        Some(1)
    } else if two {
        Some(2)
    } else if three {
        Some(3)
    } else {
        None
    }
}

/// The same slot where there is one, else 0.
pub(crate) fn taken_slot(diagram: &Diagram, corners: Corners) -> u8
    requires { IsCrossing diagram.now.crossings corners.first }
    ensures slot { result
        ≡ unwrap_or
        (slide_slot diagram.now.crossings corners.first corners.second corners.third) 0 }
    ensures below { result < 4 }
{
    match slide_slot(diagram, corners) {
        Some(slot) => slot,
        None => 0,
    }
}

/// Whether a slide can be made at the triangle of a slot of the first crossing.
fn is_slidable_at(diagram: &Diagram, corners: Corners, slot: u8) -> bool
    requires first { IsCrossing diagram.now.crossings corners.first }
    requires slot { slot < 4 }
    ensures { result
        ≡ is_slidable_at diagram.now.crossings corners.first corners.second corners.third slot }
{
    let x = dart_at_slot(diagram, corners.first, slot);
    let y = step(diagram, x);
    let z = step(diagram, y);
    let is_there = is_triangle(diagram, corners, slot);
    is_there && has_heights(x, y, z)
}

/// Whether the face of a slot of the first crossing is a triangle with a dart at each of the three.
fn is_triangle(diagram: &Diagram, corners: Corners, slot: u8) -> bool
    requires first { IsCrossing diagram.now.crossings corners.first }
    requires slot { slot < 4 }
    ensures { result
        ≡ is_triangle diagram.now.crossings corners.first corners.second corners.third slot }
{
    let x = dart_at_slot(diagram, corners.first, slot);
    let y = step(diagram, x);
    let z = step(diagram, y);
    let back = step(diagram, z);
    let apart = are_apart(corners);
    let at_corners = are_at(y, z, corners);
    all_of(apart, back == x, at_corners)
}

/// Whether three tests hold.
fn all_of(first: bool, second: bool, third: bool) -> bool
    ensures { result ≡ (first && (second && third)) }
{
    first && (second && third)
}

/// Whether three crossings are different.
fn are_apart(corners: Corners) -> bool
    ensures { result
        ≡ (not (nat_eq corners.first corners.second)
        && (not (nat_eq corners.first corners.third)
        && not (nat_eq corners.second corners.third))) }
{
    let later = corners.first != corners.third && corners.second != corners.third;
    corners.first != corners.second && later
}

/// Whether two darts are at the second and the third of three crossings, in either order.
fn are_at(y: u8, z: u8, corners: Corners) -> bool
    ensures { result
        ≡ ((is_at_crossing y corners.second && is_at_crossing z corners.third)
        || (is_at_crossing y corners.third && is_at_crossing z corners.second)) }
{
    let in_order = are_at_two(y, z, corners.second, corners.third);
    let turned_round = are_at_two(y, z, corners.third, corners.second);
    in_order || turned_round
}

/// Whether the first of two darts is at one crossing and the second at another.
fn are_at_two(y: u8, z: u8, crossing: u8, other: u8) -> bool
    ensures { result ≡ (is_at_crossing y crossing && is_at_crossing z other) }
{
    let first = is_at(y, crossing);
    let second = is_at(z, other);
    first && second
}

/// The dart at a slot of a crossing.
pub(crate) fn dart_at_slot(diagram: &Diagram, crossing: u8, slot: u8) -> u8
    requires crossing { IsCrossing diagram.now.crossings crossing }
    requires slot { slot < 4 }
    ensures dart { result ≡ dart_at_slot crossing slot }
    ensures below { result < dart_count diagram.now.crossings }
{
    diagram_laws(diagram);
    4 * (crossing - 1) + slot
}

/// The dart that follows a dart in its face.
pub(crate) fn step(diagram: &Diagram, dart: u8) -> u8
    requires { dart < dart_count diagram.now.crossings }
    ensures step { result ≡ step diagram.now.crossings dart }
    ensures below { result < dart_count diagram.now.crossings }
{
    diagram_laws(diagram);
    turned(diagram.partner_at(dart))
}

/// Whether a dart is at a crossing.
fn is_at(dart: u8, crossing: u8) -> bool
    ensures { result ≡ is_at_crossing dart crossing }
{
    dart / 4 == crossing.saturating_sub(1)
}

/// Whether the slots of three darts do not have one parity.
fn has_heights(x: u8, y: u8, z: u8) -> bool
    ensures { result ≡ has_heights x y z }
{
    !(x % 4 % 2 == y % 4 % 2 && y % 4 % 2 == z % 4 % 2)
}
