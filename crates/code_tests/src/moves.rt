//! Moves of worked diagrams: what they leave, what refuses them, and long rows of them.

use diagram_moves::{Move, MoveFault, Side, apply_move};
use jones_sum::jones;
use kh_types::Diagram;
use known_links::{CURL, FIGURE_EIGHT, HOPF, TREFOIL, WHITEHEAD, diagram_of};

/// A circle that lies over another.
pub(crate) const OVER_CIRCLE: &[[u8; 4]] = &[[1, 4, 2, 3], [2, 4, 1, 3]];

/// Twenty curls, each a component of its own.
pub(crate) const TWENTY_CURLS: &[[u8; 4]] = &[
    [1, 1, 2, 2],
    [3, 3, 4, 4],
    [5, 5, 6, 6],
    [7, 7, 8, 8],
    [9, 9, 10, 10],
    [11, 11, 12, 12],
    [13, 13, 14, 14],
    [15, 15, 16, 16],
    [17, 17, 18, 18],
    [19, 19, 20, 20],
    [21, 21, 22, 22],
    [23, 23, 24, 24],
    [25, 25, 26, 26],
    [27, 27, 28, 28],
    [29, 29, 30, 30],
    [31, 31, 32, 32],
    [33, 33, 34, 34],
    [35, 35, 36, 36],
    [37, 37, 38, 38],
    [39, 39, 40, 40],
];

/// The codes were worked by hand from the rules of moves.
#[test]
fn worked_moves_leave_these_codes(rt: HostRuntime) {
    let kink = Move::KinkAdd {
        arc: 1,
        under_first: true,
        positive: true,
    };
    assert!(rt; leaves(CURL, kink, &[[3, 1, 4, 4], [1, 3, 2, 2]], 0));
    let second = Move::KinkAdd {
        arc: 2,
        under_first: true,
        positive: true,
    };
    assert!(rt; leaves(CURL, second, &[[1, 1, 2, 4], [2, 4, 3, 3]], 0));
    assert!(rt; leaves(CURL, Move::KinkDrop { crossing: 1 }, &[], 1));
    assert!(rt;
        leaves(
            &[[3, 1, 4, 4], [1, 3, 2, 2]],
            Move::KinkDrop { crossing: 2 },
            CURL,
            0
        )
    );
    let finger = finger_add(1, Side::Left, 2, Side::Right);
    let fingered = [[3, 1, 4, 6], [4, 1, 5, 2], [5, 3, 6, 2]];
    assert!(rt; leaves(CURL, finger, &fingered, 0));
    let drop = Move::FingerDrop {
        first: 1,
        second: 2,
    };
    assert!(rt; leaves(OVER_CIRCLE, drop, &[], 2));
}

/// A Hopf link with a kink; and a circle that lies over, whose two arcs exchange their numbers.
#[test]
fn worked_slides_leave_these_codes(rt: HostRuntime) {
    let slid = [[6, 3, 5, 2], [4, 2, 1, 1], [3, 6, 4, 5]];
    assert!(rt;
        leaves(
            &[[5, 2, 6, 1], [3, 3, 4, 2], [4, 5, 1, 6]],
            slide(1, 2, 3),
            &slid,
            0
        )
    );
    let circle = [[2, 6, 3, 5], [3, 6, 4, 5], [1, 1, 2, 4]];
    assert!(rt;
        leaves(
            &[[1, 6, 2, 5], [4, 6, 1, 5], [2, 4, 3, 3]],
            slide(1, 2, 3),
            &circle,
            0
        )
    );
}

/// Each fault, and the order of the faults.
#[test]
fn refused_moves_have_their_least_fault(rt: HostRuntime) {
    let genus = MoveFault::Genus {
        faces: 3,
        wanted: 5,
    };
    assert!(rt; refuses(CURL, 0, finger_add(1, Side::Left, 2, Side::Left), genus));
    let same = finger_add(1, Side::Left, 1, Side::Right);
    assert!(rt; refuses(CURL, 0, same, MoveFault::SameArc { arc: 1 }));
    assert!(rt; refuses(&[], 1, kink_add(1), MoveFault::OnLoop { arc: 1 }));
    assert!(rt; refuses(TREFOIL, 0, kink_add(7), MoveFault::NoArc { arc: 7 }));
    assert!(rt; refuses(TREFOIL, 0, kink_add(0), MoveFault::NoArc { arc: 0 }));
    let no_kink = MoveFault::NoKink { crossing: 1 };
    assert!(rt; refuses(TREFOIL, 0, Move::KinkDrop { crossing: 1 }, no_kink));
    let no_crossing = MoveFault::NoCrossing { crossing: 4 };
    assert!(rt; refuses(TREFOIL, 0, Move::KinkDrop { crossing: 4 }, no_crossing));
    assert!(rt; refuses(TREFOIL, 0, slide(1, 2, 3), MoveFault::Heights));
    let bigon = Move::FingerDrop {
        first: 1,
        second: 2,
    };
    let no_bigon = MoveFault::NoBigon {
        first: 1,
        second: 2,
    };
    assert!(rt; refuses(TREFOIL, 0, bigon, no_bigon));
    let no_triangle = MoveFault::NoTriangle {
        first: 1,
        second: 2,
        third: 2,
    };
    assert!(rt; refuses(HOPF, 0, slide(1, 2, 2), no_triangle));
    let limit = MoveFault::CrossingLimit { count: 21 };
    assert!(rt; refuses(TWENTY_CURLS, 1, kink_add(1), limit));
    assert!(rt; refuses(TWENTY_CURLS, 1, kink_add(41), limit));
    assert!(rt; refuses(TWENTY_CURLS, 1, kink_add(42), MoveFault::NoArc { arc: 42 }));
}

/// Two hundred moves of all kinds from each of five links, up to seven crossings.
#[test]
fn seeded_moves_keep_the_polynomial(rt: HostRuntime) {
    for arcs in [CURL, HOPF, TREFOIL, FIGURE_EIGHT, WHITEHEAD] {
        assert!(rt; keeps_polynomial(arcs));
    }
}

fn keeps_polynomial(arcs: &[[u8; 4]]) -> bool {
    let Ok(first) = diagram_of(arcs, 0) else {
        return false;
    };
    let wanted = jones(&first);
    let mut diagram = first;
    let mut seed = 1;
    let mut is_kept = true;
    for _ in 0..200u8 {
        seed = next_seed(seed);
        if let Ok(moved) = apply_move(&diagram, seeded_move(&diagram, seed))
            && moved.count() <= 7
        {
            is_kept = is_kept && jones(&moved) == wanted;
            diagram = moved;
        }
    }
    is_kept
}

/// A linear congruence (Knuth, "The Art of Computer Programming", volume 2, section 3.3.4).
fn next_seed(seed: u32) -> u32 {
    seed.wrapping_mul(1_664_525).wrapping_add(1_013_904_223)
}

/// A move at numbers of the diagram that a seed gives.
fn seeded_move(diagram: &Diagram, seed: u32) -> Move {
    let count = u32::from(diagram.count());
    let arc = |digits: u32| (digits % (2 * count + 1)) as u8;
    let crossing = |digits: u32| (digits % (count + 1)) as u8;
    match (seed >> 4) % 5 {
        0 => Move::KinkAdd {
            arc: arc(seed >> 16),
            under_first: (seed >> 8) % 2 == 0,
            positive: (seed >> 9) % 2 == 0,
        },
        1 => Move::KinkDrop {
            crossing: crossing(seed >> 16),
        },
        2 => Move::FingerAdd {
            over: arc(seed >> 12),
            over_side: side((seed >> 8) % 2 == 0),
            under: arc(seed >> 20),
            under_side: side((seed >> 9) % 2 == 0),
        },
        3 => Move::FingerDrop {
            first: crossing(seed >> 12),
            second: crossing(seed >> 20),
        },
        _ => slide(
            crossing(seed >> 8),
            crossing(seed >> 14),
            crossing(seed >> 20),
        ),
    }
}

fn side(is_left: bool) -> Side {
    if is_left { Side::Left } else { Side::Right }
}

pub(crate) fn kink_add(arc: u8) -> Move {
    Move::KinkAdd {
        arc,
        under_first: true,
        positive: true,
    }
}

pub(crate) fn finger_add(over: u8, over_side: Side, under: u8, under_side: Side) -> Move {
    Move::FingerAdd {
        over,
        over_side,
        under,
        under_side,
    }
}

pub(crate) fn slide(first: u8, second: u8, third: u8) -> Move {
    Move::Slide {
        first,
        second,
        third,
    }
}

/// Whether a move of a code leaves another.
pub(crate) fn leaves(arcs: &[[u8; 4]], change: Move, wanted: &[[u8; 4]], loops: u8) -> bool {
    match (diagram_of(arcs, 0), diagram_of(wanted, loops)) {
        (Ok(diagram), Ok(new)) => apply_move(&diagram, change) == Ok(new),
        _ => false,
    }
}

/// Whether a move of a code is refused by a fault.
pub(crate) fn refuses(arcs: &[[u8; 4]], loops: u8, change: Move, fault: MoveFault) -> bool {
    match diagram_of(arcs, loops) {
        Ok(diagram) => apply_move(&diagram, change) == Err(fault),
        Err(_) => false,
    }
}
