//! Walks along the circles of a state.
//!
//! A walk goes from a dart across the smoothing of its crossing, and on to the other end of the arc
//! there. A checkerboard gives each arc one dart of either colour, and a smoothing joins darts of
//! different colours. So a walk stays on darts of one colour; it meets each arc of its circle once,
//! and then is back where it began. The walk itself need not know the colours.

ghost use Rattle.std.specs.Prelude.{◌≡◌, ◌+◌, ◌*◌, ◌<◌, ◌≤◌, length, slice_index, IsTrue};
ghost use Rattle.kh_types.specs.Acceptance.{accepted};
ghost use Rattle.kh_types.specs.Code.{IsArc};
ghost use Rattle.kh_types.specs.Circles.{circles_of};
ghost use Rattle.kh_types.specs.Darts.{dart_count};
ghost use Rattle.kh_types.specs.Walks.{IsWalked};
ghost use Rattle.kh_types.specs.declared.classes.TheConstants.{CLASS_MEMBERS};
ghost use Rattle.kh_types.specs.declared.limits.TheConstants.{CROSSINGS};
ghost use Rattle.circle_smoothing.specs.CircleLists.{AreCircles};
ghost use Rattle.kh_types.specs.CircleSteps.{across, circle_step};

use crate::prepared::Smoothings;
use arrayvec::ArrayVec;
use kh_types::{CLASS_MEMBERS, classes_of, is_least};

/// The circle of each arc and each loop in a state, by the least of them on it, after an entry for
/// the number 0. Each circle is walked once, from its least arc.
pub fn circles_of(smoothings: &Smoothings, state: u32) -> ArrayVec<u8, CLASS_MEMBERS>
    ensures circles { result.items ≡ circles_of smoothings.now state }
    ensures list { AreCircles result.items }
    ensures few { length result.items ≤ CLASS_MEMBERS }
    ensures accepted { IsTrue (accepted smoothings.now) }
    ensures small { length smoothings.now.crossings ≤ CROSSINGS }
{
    let arcs = 2 * smoothings.diagram().crossings().len();
    let mut circles = classes_of(arcs + smoothings.diagram().loops() as usize + 1, &[]);
    'arcs: for place in 0..arcs {
        walk_once(smoothings, state, &mut circles, place as u8 + 1);
    }
    circles
}

/// Walks the circle of an arc, where the arc is the least on it.
#[tactic(auto, using(crate::proofs::CircleWalks::walks))]
fn walk_once(smoothings: &Smoothings, state: u32, circles: &mut [u8], least: u8)
    requires code { IsTrue (accepted smoothings.now) }
    requires few { length smoothings.now.crossings ≤ CROSSINGS }
    requires arc { IsArc smoothings.now.crossings least }
    requires walked { IsWalked (circles_of smoothings.now state) circles.old least }
    ensures { IsWalked (circles_of smoothings.now state) circles.new (least + 1) }
{
    if is_least(circles, least) {
        walk_from(smoothings, state, circles, least);
    }
}

/// Walks a circle from its least arc, and puts all its arcs into the class of that one.
fn walk_from(smoothings: &Smoothings, state: u32, circles: &mut [u8], least: u8)
    requires code { IsTrue (accepted smoothings.now) }
    requires few { length smoothings.now.crossings ≤ CROSSINGS }
    requires arc { IsArc smoothings.now.crossings least }
    requires walked { IsWalked (circles_of smoothings.now state) circles.old least }
    requires alone { slice_index circles.old least ≡ least }
    ensures { IsWalked (circles_of smoothings.now state) circles.new (least + 1) }
{
    let mut place = place_after(smoothings, state, smoothings.start_of(least));
    let mut arc = smoothings.arc_at(place);
    'walk: while arc != least {
        circles[arc as usize] = least;
        place = place_after(smoothings, state, place);
        arc = smoothings.arc_at(place);
    }
}

/// The place of the dart that follows on a circle: across the smoothing, and on to the other end of
/// the arc.
#[tactic(auto, using(kh_types::proofs::JoinedSlots::places))]
fn place_after(smoothings: &Smoothings, state: u32, place: u8) -> u8
    requires few { length smoothings.now.crossings ≤ CROSSINGS }
    requires place { place < dart_count smoothings.now.crossings }
    ensures place { result ≡ circle_step smoothings.now.crossings state place }
    ensures below { result < dart_count smoothings.now.crossings }
{
    smoothings.partner_at(across(state, place))
}

/// The place of the dart that the smoothing of its crossing joins a dart with.
fn across(state: u32, place: u8) -> u8
    requires { place < 4 * CROSSINGS }
    ensures { result ≡ across state place }
{
    if (state >> (place / 4)) % 2 == 0 {
        place + 1 - 2 * (place % 2)
    } else {
        4 * (place / 4) + (3 - place % 4)
    }
}
