//! JSON texts: that they are answered where there is memory, which no clause says; and which bytes
//! the kit takes for JSON.

use json_code::{JsonStop, read_json};
use kh_types::{CROSSINGS, Crossing, INPUT_BYTES, RawCode};
use std::alloc::{AllocError, Global};
use std::process::Abort;
use std::test::Fail;

/// A text and its one crossing.
const CROSSING_ROWS: [(&str, Crossing); 5] = [
    ("[[1,1,2,2]]", Crossing([1, 1, 2, 2])),
    (" [ [ 1 ,\t1,\r2,\n2 ] ] ", Crossing([1, 1, 2, 2])),
    ("[[0,254,255,256]]", Crossing([0, 254, 255, 0])),
    ("[[257,511,512,65537]]", Crossing([0, 0, 0, 0])),
    (
        "[[18446744073709551615,4294967297,7,0]]",
        Crossing([0, 0, 7, 0]),
    ),
];

/// A text that is JSON, and the crossing and the slot of its first wrong member.
const SHAPE_ROWS: [(&str, u32, u8); 26] = [
    ("7", 0, 0),
    ("null", 0, 0),
    ("\"[[1,1,2,2]]\"", 0, 0),
    ("{\"PD\": [[1,1,2,2]]}", 0, 0),
    ("[7,[1,1,2,2]]", 1, 0),
    ("[{\"1\": 1, \"1\": 2}]", 1, 0),
    ("[\"\u{7f}\"]", 1, 0),
    ("[0,0,0,0,0,0,0,0,0,0,0,0,0,0,0,0,0,0,0,0]", 1, 0),
    ("[[]]", 1, 0),
    ("[[1]]", 1, 1),
    ("[[1,1]]", 1, 2),
    ("[[1,1,2]]", 1, 3),
    ("[[1,1,2,2,3]]", 1, 4),
    ("[[null,1,2,2,3]]", 1, 0),
    ("[[1,true,2,2,3]]", 1, 1),
    ("[[1,1,\"2\",2,3]]", 1, 2),
    ("[[1,1,2,[2],3]]", 1, 3),
    ("[[1,1,2,2.0]]", 1, 3),
    ("[[1,1,2,2e0]]", 1, 3),
    ("[[1,1,2,-2]]", 1, 3),
    ("[[1,1,2,-0]]", 1, 3),
    ("[[1,1,2,0e400]]", 1, 3),
    ("[[1,1,2,1e-400]]", 1, 3),
    ("[[1,1,2,18446744073709551616]]", 1, 3),
    ("[[1,1,2,2],[3,3,4]]", 2, 3),
    ("[[1,1,2,2],7,[3]]", 2, 0),
];

/// A text that is no JSON.
const OTHER_ROWS: [&[u8]; 26] = [
    b"",
    b" ",
    b"[",
    b"[[1,1,2,2]",
    b"[[1,1,2,2]]]",
    b"[[1,1,2,2],]",
    b"[[1,1,2,2,]]",
    b"[[1 1,2,2]]",
    b"[[01,1,2,2]]",
    b"[[+1,1,2,2]]",
    b"[[1.,1,2,2]]",
    b"[[- 1,1,2,2]]",
    b"[[NaN,1,2,2]]",
    b"[[1,1,2,1e400]]",
    b"[0,0,0,0,0,0,0,0,0,0,0,0,0,0,0,0,0",
    b"['1']",
    b"[\"\\ud800\"]",
    b"[\"\\udc00\\ud800\"]",
    b"[\"\xed\xa0\x80\"]",
    b"[\"\xff\"]",
    b"[\"\n\"]",
    b"[\"a]",
    b"[1] // one",
    b"[\x0c]",
    b"[\xc2\xa0]",
    b"\xef\xbb\xbf[[1,1,2,2]]",
];

/// What a text reads as, which is short enough.
fn read(rt: &impl Abort, alloc: Global, text: &[u8]) -> Result<RawCode, JsonStop> {
    assert!(rt; text.len() <= INPUT_BYTES);
    read_json(alloc, text)
}

#[test]
fn reads_the_trefoil(rt: HostRuntime) -> Result<(), Fail> {
    let code = read(&rt, rt.alloc(), b"[[1,4,2,5],[3,6,4,1],[5,2,6,3]]")?;
    let wanted = [
        Crossing([1, 4, 2, 5]),
        Crossing([3, 6, 4, 1]),
        Crossing([5, 2, 6, 3]),
    ];
    assert_eq!(rt; code.crossings.as_slice(), wanted.as_slice());
    assert_eq!(rt; code.loops, 0);
    Ok(())
}

#[test]
fn reads_numbers_as_arcs(rt: HostRuntime) -> Result<(), Fail> {
    for (text, crossing) in CROSSING_ROWS {
        let code = read(&rt, rt.alloc(), text.as_bytes())?;
        assert_eq!(rt;
            code.crossings.as_slice(),
            [crossing].as_slice(),
            "at {text}"
        );
    }
    Ok(())
}

#[test]
fn refuses_other_shapes(rt: HostRuntime) {
    for (text, crossing, slot) in SHAPE_ROWS {
        let stop = read(&rt, rt.alloc(), text.as_bytes()).err();
        assert_eq!(rt; stop, Some(JsonStop::Shape { crossing, slot }), "at {text}");
    }
}

#[test]
fn refuses_what_is_no_json(rt: HostRuntime) {
    for (row, text) in OTHER_ROWS.iter().enumerate() {
        let stop = read(&rt, rt.alloc(), text).err();
        assert_eq!(rt; stop, Some(JsonStop::JsonText), "at row {row}");
    }
}

#[test]
fn reads_as_deep_as_127_arrays(rt: HostRuntime) -> Result<(), Fail> {
    let deep = nested(rt.alloc(), 127)?;
    let wrong = JsonStop::Shape {
        crossing: 1,
        slot: 0,
    };
    assert_eq!(rt; read(&rt, rt.alloc(), &deep).err(), Some(wrong));

    let deeper = nested(rt.alloc(), 128)?;
    assert_eq!(rt;
        read(&rt, rt.alloc(), &deeper).err(),
        Some(JsonStop::JsonText)
    );
    Ok(())
}

/// Arrays within each other, as many as said.
fn nested(alloc: Global, depth: usize) -> Result<Vec<u8>, AllocError> {
    let mut text = vec![in alloc; b'['; depth]?;
    for _ in 0..depth {
        text.push(b']')?;
    }
    Ok(text)
}

#[test]
fn counts_as_many_crossings_as_there_are(rt: HostRuntime) -> Result<(), Fail> {
    let code = read(
        &rt,
        rt.alloc(),
        &listed(rt.alloc(), "[1,1,2,2]", CROSSINGS)?,
    )?;
    assert_eq!(rt; code.crossings.len(), CROSSINGS);

    let most = (INPUT_BYTES - 1) / 2;
    for (element, count) in [
        ("[1,1,2,2]", CROSSINGS + 1),
        ("0", CROSSINGS + 1),
        ("0", 300),
        ("0", most),
    ] {
        let text = listed(rt.alloc(), element, count)?;
        let stop = read(&rt, rt.alloc(), &text).err();
        assert_eq!(rt;
            stop,
            Some(JsonStop::CrossingLimit {
                count: count as u32
            })
        );
    }
    Ok(())
}

/// An array of one element, as often as said.
fn listed(alloc: Global, element: &str, count: usize) -> Result<Vec<u8>, AllocError> {
    let mut text = Vec::from_slice(alloc, b"[")?;
    for index in 0..count {
        if index > 0 {
            text.push(b',')?;
        }
        text.extend_from_slice(element.as_bytes())?;
    }
    text.push(b']')?;
    Ok(text)
}

#[test]
fn stops_that_differ_are_not_equal(rt: HostRuntime) {
    let shape = JsonStop::Shape {
        crossing: 1,
        slot: 2,
    };
    for other in [
        JsonStop::JsonText,
        JsonStop::NoMemory,
        JsonStop::CrossingLimit { count: 1 },
        JsonStop::Shape {
            crossing: 2,
            slot: 2,
        },
        JsonStop::Shape {
            crossing: 1,
            slot: 1,
        },
    ] {
        assert!(rt; shape != other);
    }
    assert!(rt; JsonStop::CrossingLimit { count: 1 } != JsonStop::CrossingLimit { count: 2 });
}
