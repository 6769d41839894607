//! Planar diagram texts, read and printed.

use kh_types::{Crossing, Diagram, INPUT_BYTES};
use pd_code::{Item, PdStop, print_pd, read_pd};
use std::alloc::Global;
use std::test::Fail;

const TREFOIL: &[u8; 38] = b"PD[X[1,4,2,5], X[3,6,4,1], X[5,2,6,3]]";

const TREFOIL_CROSSINGS: [Crossing; 3] = [
    Crossing([1, 4, 2, 5]),
    Crossing([3, 6, 4, 1]),
    Crossing([5, 2, 6, 3]),
];

/// The trefoil as on the Knot Atlas page "3_1", in spellings that people paste.
#[test]
fn reads_the_trefoil_in_many_spellings(rt: HostRuntime) -> Result<(), Fail> {
    let texts = [
        "PD[X[1, 4, 2, 5], X[3, 6, 4, 1], X[5, 2, 6, 3]]",
        "PD[X[1,4,2,5],X[3,6,4,1],X[5,2,6,3]]\n",
        "PD[\n  X[1, 4, 2, 5],\n  X[3, 6, 4, 1],\n  X[5, 2, 6, 3]\n]\n",
        "PD[X[1, 4, 2, 5], X[3, 6, \r\n    4, 1], X[5, 2, 6, 3]]\r\n",
        "\tPD [ X [ 1 , 4 , 2 , 5 ] , X [ 3 , 6 , 4 , 1 ] , X [ 5 , 2 , 6 , 3 ] ] ",
        "PD[X[01,04,02,05],X[03,06,04,01],X[05,02,06,03]]",
    ];
    for text in texts {
        let code = read_pd(rt.alloc(), text.as_bytes())?;
        assert!(rt; code.crossings.as_slice() == TREFOIL_CROSSINGS.as_slice());
        assert!(rt; code.loops == 0);
    }
    Ok(())
}

#[test]
fn refuses_other_texts_at_their_places(rt: HostRuntime) {
    let rows = [
        ("", 0),
        ("  ", 2),
        ("X[1,4,2,5], X[3,6,4,1], X[5,2,6,3]", 0),
        ("PD(X[1,4,2,5])", 2),
        ("PD[X1425, X3641, X5263]", 4),
        ("PD[X[1 4 2 5]]", 7),
        ("PD[X[1,4,2,5]; X[3,6,4,1]]", 13),
        ("PD[X[1,4,2,5]].", 14),
        ("PD[X[1.0,4,2,5]]", 6),
        ("PD[\"X[1,4,2,5]\"]", 3),
        ("PD[Xp[1,4,2,5]]", 3),
        ("PD[P[1,2]]", 3),
        ("[[1,4,2,5]]", 0),
        (" [[1,1,2,2]]", 1),
        ("GaussCode[]", 0),
        ("pd[]", 0),
        ("PDX[]", 0),
        ("PD{}", 2),
        ("PD[]]", 4),
        ("PD[]PD[]", 4),
        ("PD[,]", 3),
        ("PD[X[1,1,2,2],]", 14),
        ("PD[X[1,1,2]]", 10),
        ("PD[X[1,1,2,2,3]]", 12),
        ("PD[x[1,1,2,2]]", 3),
        ("PD[XX[1,1,2,2]]", 3),
        ("PD[Loop[]]", 8),
        ("PD[Loop[1,2]]", 9),
        ("PD[X[1,1,2,+2]]", 11),
        ("PD[X[1,1,2,- 2]]", 11),
        ("PD[X[1,1,2,--2]]", 11),
        ("\u{feff}PD[]", 0),
        ("PD\u{a0}[]", 2),
        ("PD\u{c}[]", 2),
        ("PD[]\0", 4),
        ("? 70000", 0),
    ];
    for (text, place) in rows {
        let stop = stop_of(rt.alloc(), text.as_bytes());
        assert!(rt; stop == Some(PdStop::Text { place }));
    }
}

/// Why no code is read from a text, if it is short enough to be read and has none.
fn stop_of(alloc: Global, text: &[u8]) -> Option<PdStop> {
    if text.len() <= INPUT_BYTES {
        read_pd(alloc, text).err()
    } else {
        None
    }
}

#[test]
fn refuses_large_numbers_at_their_places(rt: HostRuntime) {
    let rows = [
        ("PD[X[1,1,2,65536]]", 11),
        ("PD[Loop[65536]]", 8),
        ("PD]70000", 3),
        ("70000 ?", 0),
    ];
    for (text, place) in rows {
        let stop = stop_of(rt.alloc(), text.as_bytes());
        assert!(rt; stop == Some(PdStop::Number { place }));
    }
}

/// Where the text is cut off it ends too early; `P` alone is another word.
#[test]
fn refuses_each_beginning_of_the_trefoil(rt: HostRuntime) {
    for end in 0..TREFOIL.len() {
        let place = if end == 1 { 0 } else { end as u32 };
        let stop = stop_of(rt.alloc(), &TREFOIL[..end]);
        assert!(rt; stop == Some(PdStop::Text { place }));
    }
}

#[test]
fn answers_the_longest_texts(rt: HostRuntime) -> Result<(), Fail> {
    let blanks = vec![in rt.alloc(); b' '; INPUT_BYTES]?;
    let stop = stop_of(rt.alloc(), &blanks);
    assert!(rt; stop == Some(PdStop::Text { place: 65_536 }));
    let commas = vec![in rt.alloc(); b','; INPUT_BYTES]?;
    let stop = stop_of(rt.alloc(), &commas);
    assert!(rt; stop == Some(PdStop::Text { place: 0 }));

    let mut digits = Vec::from_slice(rt.alloc(), b"PD[X[1,1,2,")?;
    for _ in 0..65_000 {
        digits.push(b'0')?;
    }
    digits.extend_from_slice(b"2]]")?;
    assert!(rt; digits.len() <= INPUT_BYTES);
    let code = read_pd(rt.alloc(), &digits)?;
    assert!(rt; code.crossings.as_slice() == [Crossing([1, 1, 2, 2])].as_slice());
    Ok(())
}

#[test]
fn counts_the_items_that_are_too_many(rt: HostRuntime) -> Result<(), Fail> {
    let rows = [
        (21, 0, PdStop::CrossingLimit { count: 21 }),
        (300, 300, PdStop::CrossingLimit { count: 300 }),
        (5_900, 0, PdStop::CrossingLimit { count: 5_900 }),
        (0, 9, PdStop::LoopLimit { count: 9 }),
        (20, 300, PdStop::LoopLimit { count: 300 }),
    ];
    for (crossings, loops, wanted) in rows {
        let text = text_with(rt.alloc(), crossings, loops)?;
        assert!(rt; stop_of(rt.alloc(), &text) == Some(wanted));
    }
    let text = text_with(rt.alloc(), 20, 8)?;
    assert!(rt; text.len() <= INPUT_BYTES);
    let code = read_pd(rt.alloc(), &text)?;
    assert!(rt; code.crossings.len() == 20);
    assert!(rt; code.loops == 8);
    Ok(())
}

/// A text of so many crossings and loops.
fn text_with(alloc: Global, crossings: u32, loops: u32) -> Result<Vec<u8>, Fail> {
    let mut text = Vec::from_slice(alloc, b"PD[")?;
    for _ in 0..crossings {
        text.extend_from_slice(b"X[1,1,2,2],")?;
    }
    for _ in 0..loops {
        text.extend_from_slice(b"Loop[1],")?;
    }
    text.pop();
    text.push(b']')?;
    Ok(text)
}

#[test]
fn prints_diagrams(rt: HostRuntime) -> Result<(), Fail> {
    let rows = [
        ("PD[]", "PD[]"),
        ("PD[Loop[7],Loop[7]]", "PD[Loop[1], Loop[2]]"),
        ("PD[Loop[1],X[1,1,2,2]]", "PD[X[1, 1, 2, 2], Loop[3]]"),
        (
            "PD[X[1,4,2,5],X[3,6,4,1],X[5,2,6,3]]",
            "PD[X[1, 4, 2, 5], X[3, 6, 4, 1], X[5, 2, 6, 3]]",
        ),
    ];
    for (text, wanted) in rows {
        let code = read_pd(rt.alloc(), text.as_bytes())?;
        if let Ok(diagram) = Diagram::try_new(&code) {
            let printed = print_pd(rt.alloc(), &diagram)?;
            assert!(rt; printed.as_slice() == wanted.as_bytes());
        } else {
            assert!(rt; false);
        }
    }
    Ok(())
}

#[test]
fn values_that_differ_are_not_equal(rt: HostRuntime) {
    assert!(rt; PdStop::Text { place: 1 } != PdStop::Text { place: 2 });
    assert!(rt; PdStop::Text { place: 1 } != PdStop::Number { place: 1 });
    assert!(rt; PdStop::CrossingLimit { count: 17 } != PdStop::LoopLimit { count: 17 });
    assert!(rt; PdStop::NoMemory != PdStop::Text { place: 0 });
    assert!(rt; Item::Loop(1) != Item::Loop(2));
    assert!(rt; Item::Crossing(1, 1, 2, 2) != Item::Crossing(1, 1, 2, 3));
}
