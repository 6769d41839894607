//! What known diagrams come to.

ghost use Rattle.std.specs.Prelude.{◌≡◌};

use circle_smoothing::{Circles, CountedDiagram, Edge, circles, edge, generator_count};
use kh_types::{Diagram, bit};
use known_links::diagram_of;
use std::process::Abort;
use std::test::Fail;

/// The slots of each crossing and the number of loops; the number of circles of each state; the
/// circles of the arcs in the first state, in the last, and in the one whose number is half of the
/// number of states; merges and splits, each by its state and its crossing, with their circles; the
/// generators. They were found by a Python program that was written for this test: it unites sets
/// of arcs.
struct Row {
    crossings: &'static [[u8; 4]],
    loops: u8,
    counts: &'static [u8],
    arcs: [&'static [u8]; 3],
    merges: &'static [(u32, u8, [u8; 3])],
    splits: &'static [(u32, u8, [u8; 3])],
    generators: u128,
}

const ROWS: &[Row] = &[
    Row {
        crossings: &[],
        loops: 0,
        counts: &[0],
        arcs: [&[], &[], &[]],
        merges: &[],
        splits: &[],
        generators: 1,
    },
    Row {
        crossings: &[],
        loops: 3,
        counts: &[3],
        arcs: [&[], &[], &[]],
        merges: &[],
        splits: &[],
        generators: 8,
    },
    Row {
        crossings: &[[1, 1, 2, 2]],
        loops: 0,
        counts: &[2, 1],
        arcs: [&[0, 1], &[0, 0], &[0, 0]],
        merges: &[(0, 1, [0, 1, 0])],
        splits: &[],
        generators: 6,
    },
    Row {
        crossings: &[[1, 1, 2, 2]],
        loops: 2,
        counts: &[4, 3],
        arcs: [&[0, 1], &[0, 0], &[0, 0]],
        merges: &[(0, 1, [0, 1, 0])],
        splits: &[],
        generators: 24,
    },
    Row {
        crossings: &[[1, 2, 2, 1]],
        loops: 0,
        counts: &[1, 2],
        arcs: [&[0, 0], &[0, 1], &[0, 1]],
        merges: &[],
        splits: &[(0, 1, [0, 0, 1])],
        generators: 6,
    },
    Row {
        crossings: &[[4, 1, 3, 2], [2, 3, 1, 4]],
        loops: 0,
        counts: &[2, 1, 1, 2],
        arcs: [&[0, 1, 1, 0], &[0, 1, 0, 1], &[0, 0, 0, 0]],
        merges: &[(0, 1, [0, 1, 0]), (0, 2, [0, 1, 0])],
        splits: &[(1, 2, [0, 0, 1]), (2, 1, [0, 0, 1])],
        generators: 12,
    },
    Row {
        crossings: &[[1, 4, 2, 5], [3, 6, 4, 1], [5, 2, 6, 3]],
        loops: 0,
        counts: &[3, 2, 2, 1, 2, 1, 1, 2],
        arcs: [
            &[0, 1, 2, 0, 1, 2],
            &[0, 1, 0, 1, 0, 1],
            &[0, 1, 1, 0, 1, 1],
        ],
        merges: &[
            (0, 1, [0, 1, 0]),
            (0, 2, [0, 2, 0]),
            (0, 3, [1, 2, 1]),
            (1, 2, [0, 1, 0]),
            (1, 3, [0, 1, 0]),
            (2, 1, [0, 1, 0]),
            (2, 3, [0, 1, 0]),
            (4, 1, [0, 1, 0]),
            (4, 2, [0, 1, 0]),
        ],
        splits: &[(3, 3, [0, 0, 1]), (5, 2, [0, 0, 1]), (6, 1, [0, 0, 1])],
        generators: 30,
    },
    Row {
        crossings: &[[4, 2, 5, 1], [8, 6, 1, 5], [6, 3, 7, 4], [2, 7, 3, 8]],
        loops: 0,
        counts: &[3, 2, 2, 1, 2, 1, 1, 2, 2, 1, 1, 2, 3, 2, 2, 3],
        arcs: [
            &[0, 1, 2, 1, 0, 2, 1, 2],
            &[0, 1, 2, 0, 1, 0, 2, 1],
            &[0, 1, 1, 1, 0, 1, 1, 1],
        ],
        merges: &[
            (0, 2, [0, 2, 0]),
            (0, 3, [1, 2, 1]),
            (0, 4, [1, 2, 1]),
            (4, 1, [0, 1, 0]),
            (4, 2, [0, 1, 0]),
            (12, 1, [0, 1, 0]),
            (12, 2, [0, 1, 0]),
        ],
        splits: &[
            (3, 3, [0, 0, 1]),
            (3, 4, [0, 0, 1]),
            (4, 4, [1, 1, 2]),
            (7, 4, [1, 1, 2]),
            (8, 3, [1, 1, 2]),
            (11, 3, [0, 0, 2]),
        ],
        generators: 66,
    },
];

#[test]
fn known_diagrams_have_these_circles_and_edges(rt: HostRuntime) -> Result<(), Fail> {
    for row in ROWS {
        let diagram = diagram_of(row.crossings, row.loops)?;
        has_circles(&rt, &diagram, row);
        has_edges(&rt, &diagram, row);
        assert_eq!(rt; generator_count(&diagram), row.generators);
    }
    Ok(())
}

/// The states of a diagram have so many circles, and the arcs are on these.
fn has_circles(rt: &impl Abort, diagram: &Diagram, row: &Row) {
    let states = 1u32 << diagram.count();
    for state in 0..states {
        let count = circles(diagram, state).count();
        assert_eq!(rt; row.counts.get(state as usize), Some(&count));
    }
    has_numbers(rt, &circles(diagram, 0), diagram, row.arcs[0]);
    has_numbers(rt, &circles(diagram, states - 1), diagram, row.arcs[1]);
    has_numbers(rt, &circles(diagram, states / 2), diagram, row.arcs[2]);
}

/// Each arc is on the circle with this number.
fn has_numbers(rt: &impl Abort, circles: &Circles, diagram: &Diagram, numbers: &[u8])
    requires { circles.now.code ≡ diagram.now }
{
    for arc in 1..=2 * diagram.count() {
        let circle = circles.of_arc(arc);
        assert!(rt; circle < circles.count());
        assert_eq!(rt; numbers.get(arc as usize - 1), Some(&circle));
    }
}

/// A diagram has these merges and splits.
fn has_edges(rt: &impl Abort, diagram: &Diagram, row: &Row) {
    for (state, crossing, [a, b, to]) in row.merges {
        let merge = Edge::Merge {
            a: *a,
            b: *b,
            to: *to,
        };
        assert_eq!(rt; edge_at(diagram, *state, *crossing), Some(merge));
    }
    for (state, crossing, [from, a, b]) in row.splits {
        let split = Edge::Split {
            from: *from,
            a: *a,
            b: *b,
        };
        assert_eq!(rt; edge_at(diagram, *state, *crossing), Some(split));
    }
}

/// The edge at a crossing, if there is one.
fn edge_at(diagram: &Diagram, state: u32, crossing: u8) -> Option<Edge> {
    if state < 1 << diagram.count()
        && 1 <= crossing
        && crossing <= diagram.count()
        && bit(u64::from(state), crossing as usize - 1) == 0
    {
        Some(edge(diagram, state, crossing))
    } else {
        None
    }
}

/// A curl apart has two circles or one; so with n of them C(n, r) states have r ones, and 2n - r
/// circles, and there are 6^n generators, by arithmetic.
#[test]
fn curls_apart_have_these_kinds(rt: HostRuntime) -> Result<(), Fail> {
    has_curls(&rt, 16, [1, 16, 12870, 1], 2_821_109_907_456)?;
    has_curls(&rt, 17, [1, 17, 24310, 1], 16_926_659_444_736)?;
    has_curls(&rt, 20, [1, 20, 125_970, 1], 3_656_158_440_062_976)?;
    Ok(())
}

/// So many curls have so many states with none, one, eight and all ones, and so many generators.
fn has_curls(
    rt: &impl Abort,
    count: usize,
    wanted: [u32; 4],
    generators: u128,
) -> Result<(), Fail> {
    let mut arcs = [[0u8; 4]; 20];
    for k in 0..20 {
        let arc = 2 * k as u8 + 1;
        arcs[k] = [arc, arc, arc + 1, arc + 1];
    }
    let counted = CountedDiagram::of_diagram(&diagram_of(&arcs[..count.min(20)], 0)?);
    for place in 0..4usize {
        let ones = [0, 1, 8, count][place];
        let circles = count.saturating_mul(2).saturating_sub(ones);
        assert!(rt; counted.count(ones, circles) == wanted[place]);
        assert!(rt; counted.count(ones, circles.saturating_add(1)) == 0);
    }
    assert!(rt; counted.generator_count() == generators);
    Ok(())
}
