//! Signed Gauss texts, read and printed.

use gauss_code::{GaussStop, print_gauss, read_gauss};
use kh_types::{Crossing, Diagram, INPUT_BYTES};
use known_links::diagram_of;
use std::alloc::Global;
use std::test::Fail;

const TREFOIL: [Crossing; 3] = [
    Crossing([1, 4, 2, 5]),
    Crossing([3, 6, 4, 1]),
    Crossing([5, 2, 6, 3]),
];

const TWO_COMPONENTS: [Crossing; 2] = [Crossing([1, 4, 2, 3]), Crossing([2, 4, 1, 3])];

const UNDER_FIRST: [Crossing; 1] = [Crossing([1, 1, 2, 2])];

const OVER_FIRST: [Crossing; 1] = [Crossing([2, 2, 1, 1])];

const NEGATIVE: [Crossing; 1] = [Crossing([2, 1, 1, 2])];

/// What some texts stand for: the crossings, and the number of loops. The trefoil is that of the
/// Knot Atlas page "3_1"; the other rows are worked by hand.
#[test]
fn reads_crossings(rt: HostRuntime) -> Result<(), Fail> {
    let trefoil = TREFOIL.as_slice();
    let two = TWO_COMPONENTS.as_slice();
    let rows = [
        (
            "GaussCode[-1, 3, -2, 1, -3, 2] Signs[-1, -1, -1]",
            trefoil,
            0,
        ),
        (
            "GaussCode [ {-1,3,-2,1,-3,2} , {} ]\r\n\tSigns[-1,-1,-1]\n",
            trefoil,
            1,
        ),
        ("GaussCode[{-1, -2}, {1, 2}] Signs[1, -1]", two, 0),
        ("GaussCode[{-1, -2}, {2, 1}] Signs[1, -1]", two, 0),
        ("GaussCode[{},{-1,-2},{},{2,1}]Signs[1,-1]", two, 2),
        ("GaussCode[-01, 001]Signs[01]", UNDER_FIRST.as_slice(), 0),
        ("GaussCode[1, -1]Signs[1]", OVER_FIRST.as_slice(), 0),
        ("GaussCode[1, -1]Signs[-1]", NEGATIVE.as_slice(), 0),
    ];
    for (text, crossings, loops) in rows {
        let code = read_gauss(rt.alloc(), text.as_bytes())?;
        assert!(rt; code.crossings.as_slice() == crossings);
        assert!(rt; code.loops == loops);
        assert!(rt; Diagram::try_new(&code).is_ok());
    }
    Ok(())
}

#[test]
fn reads_loops_alone(rt: HostRuntime) -> Result<(), Fail> {
    let rows = [
        ("GaussCode[]", 0),
        ("GaussCode[]Signs[]", 0),
        ("GaussCode[{}]", 1),
        ("GaussCode[{},{},{},{},{},{},{},{}] Signs[]", 8),
    ];
    for (text, loops) in rows {
        let code = read_gauss(rt.alloc(), text.as_bytes())?;
        assert!(rt; code.crossings.is_empty());
        assert!(rt; code.loops == loops);
    }
    Ok(())
}

const NO_TEXTS: [(&str, u32); 39] = [
    ("", 0),
    ("  ", 2),
    ("G", 0),
    ("GPD[]", 0),
    ("PD[]", 0),
    ("gausscode[]", 0),
    ("GaussCodes[]", 0),
    ("GaussCode", 9),
    ("GaussCode{}", 9),
    ("GaussCode[", 10),
    ("GaussCode[[]]", 10),
    ("GaussCode[,]", 10),
    ("GaussCode[1,]", 12),
    ("GaussCode[1 -1]", 12),
    ("GaussCode[1,{}]", 12),
    ("GaussCode[{}1]", 12),
    ("GaussCode[{},1]", 13),
    ("GaussCode[{},]", 13),
    ("GaussCode[{1,}]", 13),
    ("GaussCode[{{}}]", 11),
    ("GaussCode[{1]", 12),
    ("GaussCode[{}", 12),
    ("GaussCode[]]", 11),
    ("GaussCode[],", 11),
    ("GaussCode[] Sign[]", 12),
    ("GaussCode[]Signs", 16),
    ("GaussCode[]Signs{}", 16),
    ("GaussCode[]Signs[,]", 17),
    ("GaussCode[]Signs[1,]", 19),
    ("GaussCode[]Signs[{}]", 17),
    ("GaussCode[]Signs[]]", 18),
    ("GaussCode[]Signs[]Signs[]", 18),
    ("GaussCode[+1,-1]", 10),
    ("GaussCode[1,- 1]", 12),
    ("GaussCode[1,--1]", 12),
    ("\u{feff}GaussCode[]", 0),
    ("GaussCode[]\u{c}", 11),
    ("GaussCode[];", 11),
    ("? 70000", 0),
];

#[test]
fn refuses_other_texts_at_their_places(rt: HostRuntime) {
    for (text, place) in NO_TEXTS {
        let stop = stop_of(rt.alloc(), text.as_bytes());
        assert!(rt; stop == Some(GaussStop::Text { place }));
    }
}

/// Why no code is read from a text, if it is short enough to be read and has none.
fn stop_of(alloc: Global, text: &[u8]) -> Option<GaussStop> {
    if text.len() <= INPUT_BYTES {
        read_gauss(alloc, text).err()
    } else {
        None
    }
}

const FIRST_FAULTS: [(&str, GaussStop); 18] = [
    ("GaussCode]70000", GaussStop::Number { place: 10 }),
    ("GaussCode[0,-65536]", GaussStop::Number { place: 12 }),
    ("GaussCode[0,", GaussStop::Text { place: 12 }),
    ("GaussCode[1]", GaussStop::Label { place: 10 }),
    ("GaussCode[0]", GaussStop::Label { place: 10 }),
    ("GaussCode[1,-1,1]Signs[1]", GaussStop::Label { place: 15 }),
    ("GaussCode[1,1]Signs[1]", GaussStop::Label { place: 12 }),
    ("GaussCode[1,2]Signs[1]", GaussStop::Label { place: 12 }),
    ("GaussCode[{}, {-2} , {1}]", GaussStop::Label { place: 15 }),
    ("GaussCode[1,-257]Signs[1]", GaussStop::Label { place: 12 }),
    ("GaussCode[1,-1]", GaussStop::NoSigns),
    ("GaussCode[{1,-1},{}]", GaussStop::NoSigns),
    (
        "GaussCode[]Signs[1]",
        GaussStop::SignCount {
            found: 1,
            wanted: 0,
        },
    ),
    (
        "GaussCode[1,-1]Signs[]",
        GaussStop::SignCount {
            found: 0,
            wanted: 1,
        },
    ),
    (
        "GaussCode[{}]Signs[2,2]",
        GaussStop::SignCount {
            found: 2,
            wanted: 0,
        },
    ),
    ("GaussCode[1,-1]Signs[0]", GaussStop::Label { place: 21 }),
    ("GaussCode[1,-1]Signs[ -2]", GaussStop::Label { place: 22 }),
    (
        "GaussCode[1,2,-1,-2]Signs[1,257]",
        GaussStop::Label { place: 28 },
    ),
];

/// Each fault before the ones that the text has besides.
#[test]
fn names_the_first_fault(rt: HostRuntime) {
    for (text, wanted) in FIRST_FAULTS {
        let stop = stop_of(rt.alloc(), text.as_bytes());
        assert!(rt; stop == Some(wanted));
    }
}

#[test]
fn counts_what_is_too_many(rt: HostRuntime) -> Result<(), Fail> {
    let rows = [
        (42, 0, GaussStop::CrossingLimit { count: 21 }),
        (43, 300, GaussStop::CrossingLimit { count: 21 }),
        (600, 0, GaussStop::CrossingLimit { count: 300 }),
        (0, 9, GaussStop::LoopLimit { count: 9 }),
        (0, 300, GaussStop::LoopLimit { count: 300 }),
        (41, 300, GaussStop::LoopLimit { count: 300 }),
        (41, 8, GaussStop::Label { place: 10 + 24 + 3 }),
    ];
    for (labels, loops, wanted) in rows {
        let text = text_with(rt.alloc(), labels, loops)?;
        assert!(rt; stop_of(rt.alloc(), &text) == Some(wanted));
    }
    Ok(())
}

/// A text of so many loops, and a group of so many labels behind them if there are any.
fn text_with(alloc: Global, labels: u32, loops: u32) -> Result<Vec<u8>, Fail> {
    let mut text = Vec::from_slice(alloc, b"GaussCode[")?;
    for _ in 0..loops {
        text.extend_from_slice(b"{},")?;
    }
    if labels > 0 {
        text.push(b'{')?;
        for _ in 0..labels {
            text.extend_from_slice(b"1,")?;
        }
        text.pop();
        text.extend_from_slice(b"},")?;
    }
    text.pop();
    text.push(b']')?;
    Ok(text)
}

#[test]
fn answers_the_longest_texts(rt: HostRuntime) -> Result<(), Fail> {
    let blanks = vec![in rt.alloc(); b' '; INPUT_BYTES]?;
    let stop = stop_of(rt.alloc(), &blanks);
    assert!(rt; stop == Some(GaussStop::Text { place: 65_536 }));

    let groups = text_with(rt.alloc(), 0, 21_841)?;
    let stop = stop_of(rt.alloc(), &groups);
    assert!(rt; stop == Some(GaussStop::LoopLimit { count: 21_841 }));

    let labels = text_with(rt.alloc(), 32_761, 0)?;
    let stop = stop_of(rt.alloc(), &labels);
    assert!(rt; stop == Some(GaussStop::CrossingLimit { count: 16_380 }));
    Ok(())
}

#[test]
fn values_that_differ_are_not_equal(rt: HostRuntime) {
    assert!(rt; GaussStop::Text { place: 1 } != GaussStop::Text { place: 2 });
    assert!(rt; GaussStop::Text { place: 1 } != GaussStop::Label { place: 1 });
    assert!(rt; GaussStop::NoSigns != GaussStop::NoMemory);
    let one = GaussStop::SignCount {
        found: 1,
        wanted: 2,
    };
    assert!(rt;
        one != GaussStop::SignCount {
            found: 2,
            wanted: 1
        }
    );
}

const BORROMEAN_RINGS: [[u8; 4]; 6] = [
    [6, 1, 7, 2],
    [12, 8, 9, 7],
    [4, 12, 1, 11],
    [10, 5, 11, 6],
    [8, 4, 5, 3],
    [2, 9, 3, 10],
];

/// The trefoil (3_1), the figure eight knot (4_1), the Hopf link (L2a1) and the Borromean rings
/// (L6a4) as the Knot Atlas lists their PD codes and Gauss codes; the signs, and the other rows,
/// are worked by hand: curls, a circle that lies over another, and loops.
#[test]
fn prints_known_diagrams(rt: HostRuntime) -> Result<(), Fail> {
    let trefoil = [[1, 4, 2, 5], [3, 6, 4, 1], [5, 2, 6, 3]];
    let eight = [[4, 2, 5, 1], [8, 6, 1, 5], [6, 3, 7, 4], [2, 7, 3, 8]];
    for (crossings, loops, wanted) in [
        (
            trefoil.as_slice(),
            0,
            "GaussCode[-1, 3, -2, 1, -3, 2] Signs[-1, -1, -1]",
        ),
        (
            &eight,
            0,
            "GaussCode[1, -4, 3, -1, 2, -3, 4, -2] Signs[1, 1, -1, -1]",
        ),
        (
            &[[4, 1, 3, 2], [2, 3, 1, 4]],
            0,
            "GaussCode[{1, -2}, {2, -1}] Signs[-1, -1]",
        ),
        (
            &BORROMEAN_RINGS,
            0,
            "GaussCode[{1, -6, 5, -3}, {4, -1, 2, -5}, {6, -4, 3, -2}] Signs[-1, 1, 1, -1, 1, -1]",
        ),
        (&[[1, 1, 2, 2]], 0, "GaussCode[-1, 1] Signs[1]"),
        (&[[2, 2, 1, 1]], 2, "GaussCode[{1, -1}, {}, {}] Signs[1]"),
        (
            &[[1, 4, 2, 3], [2, 4, 1, 3]],
            1,
            "GaussCode[{-1, -2}, {1, 2}, {}] Signs[1, -1]",
        ),
        (&[], 0, "GaussCode[] Signs[]"),
        (&[], 1, "GaussCode[{}] Signs[]"),
    ] {
        let diagram = diagram_of(crossings, loops)?;
        let text = print_gauss(rt.alloc(), &diagram)?;
        assert!(rt; text.as_slice() == wanted.as_bytes());
    }
    Ok(())
}
