//! Moves at places where arcs, crossings or components coincide, and at the limits. The codes were
//! worked by hand from the rules of moves.

use crate::moves::{OVER_CIRCLE, TWENTY_CURLS, finger_add, kink_add, leaves, refuses, slide};
use diagram_moves::{Move, MoveFault, Side, apply_move};
use known_links::{CURL, TREFOIL, diagram_of};

/// A curl under a circle, which lies over its first arc.
const CURL_UNDER_CIRCLE: &[[u8; 4]] = &[[1, 6, 2, 5], [2, 6, 3, 5], [3, 1, 4, 4]];

#[test]
fn a_finger_of_an_arc_over_itself_is_refused(rt: HostRuntime) {
    let sides = [Side::Left, Side::Right];
    for over_side in sides {
        for under_side in sides {
            let finger = finger_add(5, over_side, 5, under_side);
            assert!(rt; refuses(TREFOIL, 0, finger, MoveFault::SameArc { arc: 5 }));
        }
    }
}

#[test]
fn a_curl_that_is_dropped_leaves_a_loop(rt: HostRuntime) {
    let drop = Move::KinkDrop { crossing: 1 };
    assert!(rt; leaves(CURL, drop, &[], 1));
    let two = [[1, 1, 2, 2], [3, 3, 4, 4]];
    assert!(rt; leaves(&two, drop, CURL, 1));
    assert!(rt; leaves(&two, Move::KinkDrop { crossing: 2 }, CURL, 1));
}

/// Both of two circles, and one that lies over a curl.
#[test]
fn a_bigon_that_is_a_whole_component_leaves_a_loop(rt: HostRuntime) {
    assert!(rt; leaves(OVER_CIRCLE, finger_drop(1, 2), &[], 2));
    assert!(rt; leaves(CURL_UNDER_CIRCLE, finger_drop(1, 2), CURL, 1));
    assert!(rt; leaves(CURL_UNDER_CIRCLE, finger_drop(2, 1), CURL, 1));
}

/// At each corner the two arcs that leave the triangle are 1 and 5, or 3 twice.
#[test]
fn a_triangle_whose_outer_arcs_coincide_is_slid(rt: HostRuntime) {
    let old = [[5, 2, 6, 1], [3, 3, 4, 2], [4, 5, 1, 6]];
    let slid = [[6, 3, 5, 2], [4, 2, 1, 1], [3, 6, 4, 5]];
    assert!(rt; leaves(&old, slide(1, 2, 3), &slid, 0));
    assert!(rt; leaves(&old, slide(3, 1, 2), &slid, 0));
}

/// Between the same three crossings the slid code has a second triangle, at a lesser slot of the
/// first. The same move is made at that one, and does not lead back.
#[test]
fn a_slide_twice_at_two_triangles_does_not_lead_back(rt: HostRuntime) {
    let old = [[6, 5, 1, 6], [3, 5, 4, 4], [1, 3, 2, 2]];
    let slid = [[1, 4, 2, 5], [2, 6, 3, 5], [6, 4, 1, 3]];
    let again = [[2, 3, 3, 4], [1, 1, 2, 6], [5, 5, 6, 4]];
    assert!(rt; leaves(&old, slide(1, 2, 3), &slid, 0));
    assert!(rt; leaves(&slid, slide(1, 2, 3), &again, 0));
}

/// The circle over all goes on from its kink to the second crossing, and then to the first.
#[test]
fn a_drop_exchanges_the_arcs_of_a_circle_over_all(rt: HostRuntime) {
    let kinked = [[1, 5, 2, 8], [2, 7, 3, 8], [3, 1, 4, 4], [5, 7, 6, 6]];
    assert!(rt;
        leaves(
            &kinked,
            Move::KinkDrop { crossing: 4 },
            CURL_UNDER_CIRCLE,
            0
        )
    );
}

#[test]
fn a_slide_exchanges_the_arcs_of_a_circle_over_all(rt: HostRuntime) {
    let old = [[1, 6, 2, 5], [4, 6, 1, 5], [2, 4, 3, 3]];
    let slid = [[2, 6, 3, 5], [3, 6, 4, 5], [1, 1, 2, 4]];
    assert!(rt; leaves(&old, slide(1, 2, 3), &slid, 0));
}

/// Nineteen crossings have room for a kink and for no finger, and eighteen for a finger.
#[test]
fn moves_stop_at_20_crossings(rt: HostRuntime) {
    let more = |count: u8| MoveFault::CrossingLimit { count };
    let finger = finger_add(1, Side::Left, 2, Side::Right);
    let nineteen = TWENTY_CURLS.get(..19).unwrap_or_default();
    let eighteen = TWENTY_CURLS.get(..18).unwrap_or_default();
    assert!(rt; count_after(nineteen, kink_add(38)) == Some(20));
    assert!(rt; count_after(eighteen, finger) == Some(20));
    assert!(rt; refuses(TWENTY_CURLS, 0, kink_add(40), more(21)));
    assert!(rt; refuses(nineteen, 0, finger, more(21)));
    assert!(rt; refuses(TWENTY_CURLS, 0, finger, more(22)));
    assert!(rt;
        refuses(
            TWENTY_CURLS,
            0,
            finger_add(1, Side::Left, 1, Side::Left),
            more(22)
        )
    );
}

#[test]
fn loops_take_no_kinks_and_no_fingers(rt: HostRuntime) {
    let on_loop = |arc: u8| MoveFault::OnLoop { arc };
    let finger = |over: u8, under: u8| finger_add(over, Side::Left, under, Side::Right);
    assert!(rt; refuses(CURL, 2, kink_add(3), on_loop(3)));
    assert!(rt; refuses(CURL, 2, kink_add(4), on_loop(4)));
    assert!(rt; refuses(CURL, 2, finger(3, 1), on_loop(3)));
    assert!(rt; refuses(CURL, 2, finger(1, 4), on_loop(4)));
    assert!(rt; refuses(CURL, 2, finger(4, 3), on_loop(4)));
    assert!(rt; refuses(CURL, 2, finger(3, 3), on_loop(3)));
    assert!(rt; refuses(CURL, 2, finger(3, 5), MoveFault::NoArc { arc: 5 }));
}

fn finger_drop(first: u8, second: u8) -> Move {
    Move::FingerDrop { first, second }
}

/// How many crossings there are after a move of a code.
fn count_after(arcs: &[[u8; 4]], change: Move) -> Option<u8> {
    let diagram = diagram_of(arcs, 0).ok()?;
    Some(apply_move(&diagram, change).ok()?.count())
}
