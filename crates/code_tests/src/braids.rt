//! Closed braids on known links.

use arrayvec::ArrayVec;
use braid_maker::{LETTERS, NUMBERS, NumberLimit, STRANDS, are_letters, closure, from_number};
use kh_types::{Diagram, RawCode};
use std::test::Fail;

/// Braids with the crossings and loops of their closures. Worked by hand: one strand, strands
/// without letters, a curl, the Hopf link, a circle over another, the right-handed trefoil, a curl
/// beside two loops. The others by `closure` of `bench/braids.py`, which walks up each strand, arc
/// by arc: eight strands in one component, and sixteen letters on two, three, eight and five
/// strands.
const BRAIDS: &[(u8, &[i8], &[[u8; 4]], u8)] = &[
    (1, &[], &[], 1),
    (8, &[], &[], 8),
    (2, &[1], &[[2, 2, 1, 1]], 0),
    (2, &[1, 1], &[[3, 2, 4, 1], [2, 3, 1, 4]], 0),
    (2, &[1, -1], &[[3, 2, 4, 1], [4, 2, 3, 1]], 0),
    (
        2,
        &[1, 1, 1],
        &[[4, 2, 5, 1], [2, 6, 3, 5], [6, 4, 1, 3]],
        0,
    ),
    (4, &[2], &[[2, 2, 1, 1]], 2),
    (
        8,
        &[1, 2, 3, 4, 5, 6, 7],
        &[
            [14, 2, 1, 1],
            [13, 3, 14, 2],
            [12, 4, 13, 3],
            [11, 5, 12, 4],
            [10, 6, 11, 5],
            [9, 7, 10, 6],
            [8, 8, 9, 7],
        ],
        0,
    ),
    (
        8,
        &[7, -6, 5, -4, 3, -2, 1],
        &[
            [8, 8, 9, 7],
            [6, 9, 7, 10],
            [10, 6, 11, 5],
            [4, 11, 5, 12],
            [12, 4, 13, 3],
            [2, 13, 3, 14],
            [14, 2, 1, 1],
        ],
        0,
    ),
    (
        2,
        &[
            -1, -1, -1, -1, -1, -1, -1, -1, -1, -1, -1, -1, -1, -1, -1, -1,
        ],
        &[
            [1, 17, 2, 18],
            [18, 2, 19, 3],
            [3, 19, 4, 20],
            [20, 4, 21, 5],
            [5, 21, 6, 22],
            [22, 6, 23, 7],
            [7, 23, 8, 24],
            [24, 8, 25, 9],
            [9, 25, 10, 26],
            [26, 10, 27, 11],
            [11, 27, 12, 28],
            [28, 12, 29, 13],
            [13, 29, 14, 30],
            [30, 14, 31, 15],
            [15, 31, 16, 32],
            [32, 16, 17, 1],
        ],
        0,
    ),
    (
        3,
        &[1, -2, 1, -2, 1, -2, 1, -2, 1, -2, 1, -2, 1, -2, 1, -2],
        &[
            [12, 2, 13, 1],
            [2, 23, 3, 24],
            [24, 14, 25, 13],
            [14, 3, 15, 4],
            [4, 26, 5, 25],
            [26, 15, 27, 16],
            [16, 6, 17, 5],
            [6, 27, 7, 28],
            [28, 18, 29, 17],
            [18, 7, 19, 8],
            [8, 30, 9, 29],
            [30, 19, 31, 20],
            [20, 10, 21, 9],
            [10, 31, 11, 32],
            [32, 22, 1, 21],
            [22, 11, 23, 12],
        ],
        0,
    ),
    (
        8,
        &[1, -1, 3, 3, -5, -5, 7, 7, -2, 2, -4, -4, 6, 6, 1, -7],
        &[
            [4, 2, 5, 1],
            [5, 2, 6, 3],
            [13, 10, 14, 9],
            [10, 15, 11, 14],
            [17, 21, 18, 22],
            [22, 18, 23, 19],
            [30, 26, 31, 25],
            [26, 32, 27, 31],
            [6, 11, 7, 12],
            [7, 9, 8, 12],
            [15, 19, 16, 20],
            [20, 16, 17, 13],
            [27, 24, 28, 23],
            [24, 29, 21, 28],
            [8, 4, 1, 3],
            [29, 32, 30, 25],
        ],
        0,
    ),
    (
        5,
        &[4, 4, -4, -4, 4, -4, 4, 4, -4, 4, -4, -4, 4, 4, -4, -4],
        &[
            [17, 2, 18, 1],
            [2, 19, 3, 18],
            [3, 19, 4, 20],
            [20, 4, 21, 5],
            [21, 6, 22, 5],
            [22, 6, 23, 7],
            [23, 8, 24, 7],
            [8, 25, 9, 24],
            [9, 25, 10, 26],
            [10, 27, 11, 26],
            [11, 27, 12, 28],
            [28, 12, 29, 13],
            [29, 14, 30, 13],
            [14, 31, 15, 30],
            [15, 31, 16, 32],
            [32, 16, 17, 1],
        ],
        3,
    ),
];

#[test]
fn known_braids_have_their_closures(rt: HostRuntime) {
    for (strands, letters, crossings, loops) in BRAIDS {
        assert!(rt; *strands <= STRANDS && letters.len() <= LETTERS);
        assert!(rt; are_letters(*strands, letters));
        let code = closure(*strands, letters);
        assert!(rt; code.loops == *loops);
        assert!(rt; slots_of(&code).as_slice() == *crossings);
        assert!(rt; Diagram::try_new(&code).is_ok());
    }
}

/// The digits are read least first: the number 1 begins with the letter -1, whose crossing is
/// negative.
#[test]
fn numbers_have_their_diagrams(rt: HostRuntime) -> Result<(), Fail> {
    let first = from_number(0)?;
    assert!(rt; first.count() == 10);
    assert!(rt; first.loops() == 1);
    assert!(rt; first.sign(1) == 1);
    let second = from_number(1)?;
    assert!(rt; second.count() == 10);
    assert!(rt; second.sign(1) == -1);
    assert!(rt; second.sign(2) == 1);
    assert!(rt; from_number(NUMBERS - 1).is_ok());
    assert!(rt; from_number(NUMBERS).err() == Some(NumberLimit { number: NUMBERS }));
    Ok(())
}

fn slots_of(code: &RawCode) -> ArrayVec<[u8; 4], 20> {
    let mut slots = ArrayVec::new();
    for crossing in code.crossings.as_slice() {
        let _ = slots.try_push(crossing.0);
    }
    slots
}
