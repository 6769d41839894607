//! What no clause says of acceptance: that acceptance is the one that is meant, that the calls
//! succeed, and what known diagrams come to.

use crate::plain_acceptance;
use arrayvec::ArrayVec;
use kh_types::{CodeFault, Crossing, Diagram, RawCode, Words, count_faces};
use std::test::Fail;

/// All codes of one crossing and of two over the arcs 1 to 4. How many have each of their arcs
/// twice, and how many of these are accepted, was counted by a Python program written for this test
/// from the rules of acceptance.
#[test]
fn accepts_what_the_plain_acceptance_accepts(rt: HostRuntime) {
    for (count, words, arrangements, accepted) in [(1, 256, 6, 4), (2, 65_536, 2_520, 120)] {
        let mut found = (0u32, 0u32);
        for word in 0..words {
            let raw = code_of_word(count, word);
            let is_accepted = Diagram::try_new(&raw).is_ok();
            let is_arrangement = plain_acceptance::stands_twice(&raw.crossings);
            assert_eq!(rt;
                is_accepted,
                plain_acceptance::accepts(&raw.crossings),
                "{raw:?}"
            );
            found.0 = found.0.wrapping_add(u32::from(is_arrangement));
            found.1 = found.1.wrapping_add(u32::from(is_accepted));
        }
        assert_eq!(rt; found, (arrangements, accepted), "{count}");
    }
}

/// No text reaches this fault: the loops of a text are fewer.
#[test]
fn loops_alone_are_accepted_up_to_twenty_eight(rt: HostRuntime) {
    for loops in 0..=255 {
        let fault = Diagram::try_new(&code(&[], loops)).err();
        let count = u16::from(loops);
        let wanted = (loops > 28).then_some(CodeFault::Components { count });
        assert_eq!(rt; fault, wanted, "{loops}");
    }
}

/// Curls of both signs, the Hopf link, a circle that lies over another, the left-handed trefoil and
/// the figure eight knot.
#[test]
fn known_diagrams_have_their_codes_and_signs(rt: HostRuntime) -> Result<(), Fail> {
    for (crossings, signs) in [
        ([[1, 1, 2, 2]].as_slice(), [1].as_slice()),
        (&[[1, 2, 2, 1]], &[-1]),
        (&[[4, 1, 3, 2], [2, 3, 1, 4]], &[-1, -1]),
        (&[[1, 4, 2, 3], [2, 4, 1, 3]], &[1, -1]),
        (&[[1, 4, 2, 5], [3, 6, 4, 1], [5, 2, 6, 3]], &[-1, -1, -1]),
        (
            &[[4, 2, 5, 1], [8, 6, 1, 5], [6, 3, 7, 4], [2, 7, 3, 8]],
            &[1, 1, -1, -1],
        ),
    ] {
        let raw = code(crossings, 2);
        assert!(rt; plain_acceptance::accepts(&raw.crossings), "{raw:?}");
        let diagram = Diagram::try_new(&raw)?;
        let back = diagram.to_raw();
        assert_eq!(rt; back.crossings.as_slice(), raw.crossings.as_slice());
        assert_eq!(rt; back.loops, 2);
        for crossing in 1..=diagram.count() {
            let sign = diagram.sign(crossing);
            assert_eq!(rt;
                signs.get(crossing as usize - 1),
                Some(&sign),
                "{crossing} of {raw:?}"
            );
        }
        assert_eq!(rt;
            diagram.plus() as usize,
            signs.iter().filter(|sign| **sign == 1).count()
        );
        assert_eq!(rt;
            diagram.minus() as usize,
            signs.iter().filter(|sign| **sign == -1).count()
        );
        let faces = count_faces(&raw);
        assert_eq!(rt; faces.faces, faces.wanted, "{raw:?}");
        for arc in 1..=2 * diagram.count() {
            let (head, tail) = (diagram.head(arc), diagram.tail(arc));
            assert_eq!(rt; (diagram.arc_at(head), diagram.arc_at(tail)), (arc, arc));
            assert_eq!(rt; diagram.partner(head), tail, "{arc} of {raw:?}");
        }
    }
    Ok(())
}

/// No clause speaks of time. A torus link of twenty crossings is accepted; the virtual knot that
/// the same two strands make where each runs into the other has no checkerboard.
#[test]
fn twenty_crossings_are_not_slow(rt: HostRuntime) {
    let link = Diagram::try_new(&two_strands((1, 21)));
    assert_eq!(rt; link.map(|diagram| diagram.plus()), Ok(20));
    let fault = Diagram::try_new(&two_strands((21, 1))).err();
    assert!(rt; matches!(fault, Some(CodeFault::Checkerboard { .. })));
}

#[test]
fn words_are_kept_in_order(rt: HostRuntime) -> Result<(), Fail> {
    let wanted = [
        "homology",
        "",
        "--field",
        "a word of more than eight bytes, and of more than sixteen",
        "3",
        "--field",
        "x",
        "--threads",
        "16",
        "homology",
    ];
    let mut words = Words::new(rt.alloc())?;
    for word in wanted {
        words.push(rt.alloc(), word)?;
    }
    assert_eq!(rt; words.count(), wanted.len());
    for place in 0..words.count() {
        assert_eq!(rt;
            wanted.get(place).copied(),
            Some(words.word(place)),
            "{place}"
        );
    }
    Ok(())
}

pub(crate) fn code(arcs: &[[u8; 4]], loops: u8) -> RawCode {
    let mut crossings = ArrayVec::new();
    for slots in arcs {
        let _ = crossings.try_push(Crossing(*slots));
    }
    RawCode { crossings, loops }
}

/// Two strands that cross twenty times, each under and over in turn. They begin with the arcs 1 and
/// 21, and run into the arcs that are given.
fn two_strands(ends: (u8, u8)) -> RawCode {
    let mut crossings = ArrayVec::new();
    for turn in 0..20u8 {
        let (first, second) = (turn + 1, turn + 21);
        let (after_first, after_second) = if turn < 19 {
            (first + 1, second + 1)
        } else {
            ends
        };
        let slots = if turn % 2 == 0 {
            [first, after_second, after_first, second]
        } else {
            [second, after_first, after_second, first]
        };
        let _ = crossings.try_push(Crossing(slots));
    }
    RawCode {
        crossings,
        loops: 0,
    }
}

/// The code whose slots hold the digits of a number to the base 4, each plus 1, from the lowest on.
fn code_of_word(count: u8, word: u32) -> RawCode {
    let mut crossings = ArrayVec::new();
    let mut digits = word;
    for _ in 0..count {
        let slots = [digits, digits >> 2, digits >> 4, digits >> 6].map(arc_of_digit);
        let _ = crossings.try_push(Crossing(slots));
        digits >>= 8;
    }
    RawCode {
        crossings,
        loops: 0,
    }
}

fn arc_of_digit(digits: u32) -> u8 {
    (digits % 4) as u8 + 1
}
