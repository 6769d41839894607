//! The faults of moves, each by its own test.

ghost use Rattle.std.specs.Prelude.{◌≡◌, ◌≤◌};
ghost use Rattle.std.specs.Option.{option_or};
ghost use Rattle.kh_types.specs.Code.{IsCrossing, slots_of};
ghost use Rattle.kink_and_finger_laws.specs.Drops.{is_kink};
ghost use Rattle.diagram_moves.specs.MoveFaults.{crossing_limit_fault, finger_drop_fault, finger_place_fault, kink_add_fault, kink_drop_fault, no_arc, no_bigon, no_crossing, no_heights, no_kink, no_triangle, on_loop, refused_where, same_arc, slide_fault, wrong_genus};

use crate::bigons::is_bigon;
use crate::fault::MoveFault;
use crate::pair::Pair;
use crate::triangles::{Corners, has_triangle, slide_slot};
use kh_types::{CROSSINGS, Crossing, Diagram, RawCode, count_faces};

/// The first fault of a kink that is added.
pub(crate) fn kink_add_fault(diagram: &Diagram, arc: u8) -> Option<MoveFault>
    ensures { result ≡ kink_add_fault diagram.now arc }
{
    no_arc(diagram, arc).or(crossing_limit(diagram, 1).or(on_loop(diagram, arc)))
}

/// The first fault of a kink that is dropped.
pub(crate) fn kink_drop_fault(diagram: &Diagram, crossing: u8) -> Option<MoveFault>
    ensures { result ≡ kink_drop_fault diagram.now crossing }
{
    no_crossing(diagram, crossing).or(no_kink(diagram, crossing))
}

/// The first fault of a finger that is added, but for the faces.
pub(crate) fn finger_place_fault(diagram: &Diagram, over: u8, under: u8) -> Option<MoveFault>
    ensures { result ≡ finger_place_fault diagram.now over under }
{
    let same = on_loop(diagram, over).or(on_loop(diagram, under).or(same_arc(over, under)));
    no_arc(diagram, over).or(no_arc(diagram, under).or(crossing_limit(diagram, 2).or(same)))
}

/// The first fault of a finger that is dropped.
#[tactic(auto, using(crate::proofs::FaultLemmas::first_is_crossing, crate::proofs::FaultLemmas::second_is_crossing,))]
pub(crate) fn finger_drop_fault(diagram: &Diagram, first: u8, second: u8) -> Option<MoveFault>
    ensures { result ≡ finger_drop_fault diagram.now first second }
{
    match no_crossing(diagram, first).or(no_crossing(diagram, second)) {
        Some(fault) => Some(fault),
        None => no_bigon(diagram, first, second),
    }
}

/// The first fault of a slide.
#[tactic(auto, using(crate::proofs::FaultLemmas::first_is_crossing))]
pub(crate) fn slide_fault(diagram: &Diagram, corners: Corners) -> Option<MoveFault>
    ensures { result ≡ slide_fault diagram.now corners.first corners.second corners.third }
{
    match no_corner(diagram, corners) {
        Some(fault) => Some(fault),
        None => triangle_fault(diagram, corners),
    }
}

/// The first of three crossings that there is not.
fn no_corner(diagram: &Diagram, corners: Corners) -> Option<MoveFault>
    ensures { result ≡ option_or (no_crossing diagram.now corners.first)
        (option_or (no_crossing diagram.now corners.second)
        (no_crossing diagram.now corners.third)) }
{
    let later = no_crossing(diagram, corners.second).or(no_crossing(diagram, corners.third));
    no_crossing(diagram, corners.first).or(later)
}

/// The faces of a code are not as many as on the sphere.
pub(crate) fn wrong_genus(raw: &RawCode) -> Option<MoveFault>
    ensures { result ≡ wrong_genus raw.now.crossings }
{
    let count = count_faces(raw);
    refused_where(
        count.faces != count.wanted,
        MoveFault::Genus {
            faces: count.faces,
            wanted: count.wanted,
        },
    )
}

fn refused_where(holds: bool, fault: MoveFault) -> Option<MoveFault>
    ensures { result ≡ refused_where holds fault }
{
    if holds { Some(fault) } else { None }
}

fn no_arc(diagram: &Diagram, arc: u8) -> Option<MoveFault>
    ensures { result ≡ no_arc diagram.now arc }
{
    let most = 2 * diagram.count() + diagram.loops();
    refused_where(arc == 0 || most < arc, MoveFault::NoArc { arc })
}

fn no_crossing(diagram: &Diagram, crossing: u8) -> Option<MoveFault>
    ensures { result ≡ no_crossing diagram.now crossing }
{
    let count = diagram.count();
    refused_where(
        crossing == 0 || count < crossing,
        MoveFault::NoCrossing { crossing },
    )
}

fn crossing_limit(diagram: &Diagram, more: u8) -> Option<MoveFault>
    requires { more ≤ 2 }
    ensures { result ≡ crossing_limit_fault diagram.now more }
{
    let count = diagram.count() + more;
    refused_where(
        CROSSINGS < usize::from(count),
        MoveFault::CrossingLimit { count },
    )
}

fn on_loop(diagram: &Diagram, arc: u8) -> Option<MoveFault>
    ensures { result ≡ on_loop diagram.now arc }
{
    let arcs = 2 * diagram.count();
    refused_where(arcs < arc, MoveFault::OnLoop { arc })
}

fn same_arc(over: u8, under: u8) -> Option<MoveFault>
    ensures { result ≡ same_arc over under }
{
    refused_where(over == under, MoveFault::SameArc { arc: over })
}

fn no_kink(diagram: &Diagram, crossing: u8) -> Option<MoveFault>
    ensures { result ≡ no_kink diagram.now crossing }
{
    let has_kink = is_kink(diagram, crossing);
    refused_where(!has_kink, MoveFault::NoKink { crossing })
}

#[tactic(auto, using(crate::proofs::Fours::list_any_four))]
fn is_kink(diagram: &Diagram, crossing: u8) -> bool
    ensures { result ≡ is_kink (slots_of diagram.now.crossings crossing) }
{
    match diagram
        .crossings()
        .get(usize::from(crossing.saturating_sub(1)))
    {
        Some(slots) => is_kinked(*slots),
        None => true,
    }
}

#[tactic(auto, using(crate::proofs::Fours::list_any_four))]
fn is_kinked(slots: Crossing) -> bool
    ensures { result ≡ is_kink slots }
{
    let arcs = slots.0;
    arcs[0] == arcs[1] || (arcs[1] == arcs[2] || (arcs[2] == arcs[3] || arcs[3] == arcs[0]))
}

fn no_bigon(diagram: &Diagram, first: u8, second: u8) -> Option<MoveFault>
    requires first { IsCrossing diagram.now.crossings first }
    requires second { IsCrossing diagram.now.crossings second }
    ensures { result ≡ no_bigon diagram.now first second }
{
    let pair = Pair {
        first: first - 1,
        second: second - 1,
    };
    let has_bigon = is_bigon(diagram, pair);
    refused_where(!has_bigon, MoveFault::NoBigon { first, second })
}

/// Of a slide at three crossings: there is no triangle, or in each the slots have one parity.
fn triangle_fault(diagram: &Diagram, corners: Corners) -> Option<MoveFault>
    requires { IsCrossing diagram.now.crossings corners.first }
    ensures { result
        ≡ option_or (no_triangle diagram.now corners.first corners.second corners.third)
        (no_heights diagram.now corners.first corners.second corners.third) }
{
    let is_there = has_triangle(diagram, corners);
    let has_heights = slide_slot(diagram, corners).is_some();
    let no_triangle = MoveFault::NoTriangle {
        first: corners.first,
        second: corners.second,
        third: corners.third,
    };
    refused_where(!is_there, no_triangle).or(refused_where(!has_heights, MoveFault::Heights))
}
