//! What is derived of plain values, and the bits of numbers, by rows.

use crate::acceptance::code;
use arrayvec::ArrayVec;
use kh_types::{CodeFault, Crossing, Dart, Diagram, FaceCount, bit, ones};
use std::process::Abort;
use std::test::Fail;

#[test]
fn bits_are_counted_from_the_lowest(rt: HostRuntime) {
    for (number, place, wanted) in [
        (6, 0, 0),
        (6, 1, 1),
        (6, 2, 1),
        (6, 3, 0),
        (1 << 63, 63, 1),
        (u64::MAX, 64, 0),
    ] {
        assert_eq!(rt; bit(number, place), wanted, "{place} of {number}");
    }
    for (count, number, wanted) in [(0, 7, 0), (2, 7, 2), (64, 7, 3), (64, u64::MAX, 64)] {
        assert_eq!(rt; ones(count, number), wanted, "{count} of {number}");
    }
}

/// What is derived has no clause: an equality that always holds would leave the tests above without
/// meaning.
#[test]
fn other_values_are_not_equal(rt: HostRuntime) -> Result<(), Fail> {
    expect_apart(&rt, &faults());
    expect_apart(
        &rt,
        &[
            Crossing::default(),
            Crossing([1, 1, 2, 2]),
            Crossing([2, 1, 1, 2]),
        ],
    );
    expect_apart(
        &rt,
        &[(5, 5), (3, 5), (5, 3)].map(|(faces, wanted)| FaceCount { faces, wanted }),
    );
    let mut diagrams: ArrayVec<Option<Diagram>, 8> = ArrayVec::new();
    for (crossings, loops) in [
        ([].as_slice(), 0),
        (&[], 1),
        (&[[1, 1, 2, 2]], 0),
        (&[[1, 1, 2, 2]], 1),
        (&[[1, 2, 2, 1]], 0),
        (&[[1, 1, 2, 2], [3, 3, 4, 4]], 0),
    ] {
        let _ = diagrams.try_push(Some(Diagram::try_new(&code(crossings, loops))?));
    }
    expect_apart(&rt, &diagrams);
    Ok(())
}

#[test]
fn darts_are_ordered_by_crossing_then_slot(rt: HostRuntime) {
    let darts = [(1, 0), (1, 1), (1, 3), (2, 0), (2, 2), (3, 1)].map(|(crossing, slot)| Dart {
        crossing,
        slot,
    });
    expect_apart(&rt, &darts);
    for (place, dart) in darts.iter().enumerate() {
        for (other_place, other) in darts.iter().enumerate() {
            assert_eq!(rt;
                dart.cmp(other),
                place.cmp(&other_place),
                "{dart:?} and {other:?}"
            );
            assert_eq!(rt; dart < other, place < other_place, "{dart:?} and {other:?}");
        }
    }
}

#[test]
fn the_default_crossing_is_blank(rt: HostRuntime) {
    assert_eq!(rt; Crossing::default().0, [0, 0, 0, 0]);
}

/// Each value is equal to itself and to none of the others.
fn expect_apart<T: PartialEq>(rt: &impl Abort, values: &[T]) {
    for (place, value) in values.iter().enumerate() {
        for (other_place, other) in values.iter().enumerate() {
            assert_eq!(rt;
                value == other,
                place == other_place,
                "{place} and {other_place}"
            );
        }
    }
}

/// Each fault, and some again with another number.
fn faults() -> [CodeFault; 14] {
    [
        CodeFault::ArcRange {
            crossing: 1,
            slot: 0,
        },
        CodeFault::ArcRange {
            crossing: 1,
            slot: 1,
        },
        CodeFault::ArcRange {
            crossing: 2,
            slot: 0,
        },
        CodeFault::ArcTimes { arc: 1, times: 1 },
        CodeFault::ArcTimes { arc: 1, times: 3 },
        CodeFault::Interval { arc: 1 },
        CodeFault::Under { crossing: 1 },
        CodeFault::Under { crossing: 2 },
        CodeFault::Over { crossing: 1 },
        CodeFault::TwoArc { crossing: 1 },
        CodeFault::Checkerboard { arc: 1 },
        CodeFault::Genus {
            faces: 3,
            wanted: 5,
        },
        CodeFault::Genus {
            faces: 1,
            wanted: 5,
        },
        CodeFault::Components { count: 29 },
    ]
}
