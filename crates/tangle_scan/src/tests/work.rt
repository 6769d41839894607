//! How much a scan holds behind each crossing, and how many isomorphisms were taken off there. No
//! clause says how few these are: a scan that takes the crossings as they are given, or clears
//! late, counts the same table. The figures are this program's, and no machine changes them.

use crate::complex::{Column, Object};
use crate::scan::Scan;
use crate::scanning::order::{ordered, reordered};
use crate::tests::orders::diagram_of;
use prime_field::F2;
use std::process::Abort;
use std::test::Fail;

// The torus knot of four and five strands, as a closed braid of 15 crossings.
const TORUS: [[u8; 4]; 15] = [
    [1, 25, 2, 24],
    [2, 18, 3, 17],
    [3, 11, 4, 10],
    [25, 19, 26, 18],
    [26, 12, 27, 11],
    [27, 5, 28, 4],
    [19, 13, 20, 12],
    [20, 6, 21, 5],
    [21, 29, 22, 28],
    [13, 7, 14, 6],
    [14, 30, 15, 29],
    [15, 23, 16, 22],
    [7, 1, 8, 30],
    [8, 24, 9, 23],
    [9, 17, 10, 16],
];

// Behind each of its crossings: objects, maps, and isomorphisms that were taken off.
const TORUS_WORK: [(usize, usize, usize); 15] = [
    (2, 1, 0),
    (4, 4, 0),
    (5, 6, 2),
    (10, 17, 0),
    (14, 29, 4),
    (15, 33, 9),
    (18, 43, 8),
    (22, 55, 10),
    (24, 58, 14),
    (30, 76, 13),
    (36, 95, 17),
    (20, 36, 38),
    (21, 37, 14),
    (17, 16, 21),
    (26, 0, 38),
];

// The trefoil with 16 crossings, which moves have scrambled.
const SCRAMBLED: [[u8; 4]; 16] = [
    [3, 19, 4, 18],
    [19, 13, 20, 12],
    [17, 1, 18, 32],
    [2, 2, 3, 1],
    [7, 25, 8, 24],
    [4, 31, 5, 32],
    [30, 5, 31, 6],
    [25, 7, 26, 6],
    [26, 13, 27, 14],
    [29, 15, 30, 14],
    [28, 15, 29, 16],
    [27, 17, 28, 16],
    [9, 23, 10, 22],
    [8, 23, 9, 24],
    [21, 11, 22, 10],
    [20, 11, 21, 12],
];

// Behind each of its crossings: objects, maps, and isomorphisms that were taken off.
const SCRAMBLED_WORK: [(usize, usize, usize); 16] = [
    (2, 1, 0),
    (1, 0, 2),
    (2, 1, 0),
    (3, 2, 1),
    (2, 1, 3),
    (3, 2, 1),
    (4, 3, 2),
    (5, 4, 2),
    (10, 13, 0),
    (10, 13, 10),
    (15, 22, 5),
    (15, 22, 10),
    (21, 24, 9),
    (17, 20, 17),
    (21, 24, 9),
    (6, 0, 60),
];

// The pretzel knot of four columns, of -4, 3, 5 and 7 crossings.
const PRETZEL: [[u8; 4]; 19] = [
    [19, 1, 20, 38],
    [1, 21, 2, 20],
    [21, 3, 22, 2],
    [3, 23, 4, 22],
    [6, 37, 7, 38],
    [36, 5, 37, 6],
    [4, 35, 5, 36],
    [30, 7, 31, 8],
    [8, 31, 9, 32],
    [32, 9, 33, 10],
    [10, 33, 11, 34],
    [34, 11, 35, 12],
    [18, 29, 19, 30],
    [28, 17, 29, 18],
    [16, 27, 17, 28],
    [26, 15, 27, 16],
    [14, 25, 15, 26],
    [24, 13, 25, 14],
    [12, 23, 13, 24],
];

// Behind each of its crossings: objects, maps, and isomorphisms that were taken off.
const PRETZEL_WORK: [(usize, usize, usize); 19] = [
    (2, 1, 0),
    (3, 2, 1),
    (4, 3, 2),
    (5, 4, 3),
    (6, 5, 4),
    (12, 16, 0),
    (18, 27, 6),
    (23, 30, 13),
    (46, 83, 0),
    (69, 136, 23),
    (92, 189, 46),
    (93, 166, 84),
    (110, 200, 68),
    (127, 222, 85),
    (144, 238, 102),
    (161, 250, 119),
    (178, 267, 136),
    (195, 284, 153),
    (358, 0, 406),
];

/// Whether there is an object at a place.
fn is_there(objects: &[Object], place: usize) -> bool {
    objects.get(place).map_or(false, |object| object.is_alive)
}

/// How many objects there are.
fn object_count(objects: &[Object]) -> usize {
    objects.iter().filter(|object| object.is_alive).count()
}

/// How many maps lead from the object at a place to one that is there.
fn maps_from(objects: &[Object], columns: &[Column], place: usize) -> usize {
    if !is_there(objects, place) {
        return 0;
    }
    columns.get(place).map_or(0, |column| {
        column
            .iter()
            .filter(|entry| is_there(objects, entry.head))
            .count()
    })
}

/// How many maps there are.
fn map_count(objects: &[Object], columns: &[Column]) -> usize {
    let mut count = 0usize;
    for place in 0..objects.len() {
        count = count.wrapping_add(maps_from(objects, columns, place));
    }
    count
}

/// The scan of a link, in the order that is mostly fast, holds so much behind each crossing.
fn holds<R: Abort + AllocGlobal>(
    rt: &R,
    crossings: &[[u8; 4]],
    work: &[(usize, usize, usize)],
) -> Result<(), Fail> {
    let diagram = diagram_of(rt, crossings);
    let listed = reordered(&diagram, &ordered(&diagram));
    let mut scan = Scan::<F2>::new(rt.alloc(), &listed)?;
    for (objects, maps, taken_off) in work {
        assert!(rt; scan.done() < scan.diagram().count());
        let added = scan.with_crossing(rt.alloc())?;
        let before = object_count(added.objects());
        scan = added.eliminated(rt.alloc())?;
        assert!(rt; object_count(scan.objects()) == *objects);
        assert!(rt; map_count(scan.objects(), scan.columns()) == *maps);
        assert!(rt; before.wrapping_sub(*objects) == taken_off.wrapping_mul(2));
    }
    assert!(rt; scan.done() == diagram.count());
    Ok(())
}

#[test]
fn scans_hold_little(rt: HostRuntime) -> Result<(), Fail> {
    holds(&rt, &TORUS, &TORUS_WORK)?;
    holds(&rt, &SCRAMBLED, &SCRAMBLED_WORK)?;
    holds(&rt, &PRETZEL, &PRETZEL_WORK)
}
