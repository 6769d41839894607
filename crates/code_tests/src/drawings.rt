//! What slices join, and drawings of known diagrams read back. Rows of `tests/program` compare the
//! texts of drawings.

use crate::moves::TWENTY_CURLS;
use kh_types::dart_at;
use known_links::{CURL, FIGURE_EIGHT, HOPF, TORUS_KNOT, TREFOIL, WHITEHEAD, diagram_of};
use morse_drawing::{Pair, Slice, SliceFault, joins_of, slices};
use std::alloc::Global;
use std::test::Fail;

/// Lists with a fault, and the fault.
const FAULTS: &[(&[Slice], SliceFault)] = &[
    (&[Slice::Cup { at: 1 }], SliceFault::Place { slice: 1 }),
    (
        &[
            CAP,
            Slice::Cross {
                at: 1,
                crossing: 21,
                slot: 0,
            },
        ],
        SliceFault::Label { slice: 2 },
    ),
    (&[CAP], SliceFault::Ends { strands: 2 }),
    (&[Slice::Cap { at: 0 }], SliceFault::Place { slice: 1 }),
    (&[CAP, Slice::Cap { at: 4 }], SliceFault::Place { slice: 2 }),
    (&[CAP, Slice::Cup { at: 2 }], SliceFault::Place { slice: 2 }),
    (
        &[
            CAP,
            Slice::Cross {
                at: 0,
                crossing: 1,
                slot: 0,
            },
        ],
        SliceFault::Place { slice: 2 },
    ),
    (
        &[
            CAP,
            Slice::Cross {
                at: 2,
                crossing: 21,
                slot: 0,
            },
        ],
        SliceFault::Place { slice: 2 },
    ),
    (
        &[
            CAP,
            Slice::Cross {
                at: 1,
                crossing: 0,
                slot: 0,
            },
        ],
        SliceFault::Label { slice: 2 },
    ),
    (
        &[
            CAP,
            Slice::Cross {
                at: 1,
                crossing: 20,
                slot: 4,
            },
        ],
        SliceFault::Label { slice: 2 },
    ),
    (
        &[
            CAP,
            Slice::Cross {
                at: 1,
                crossing: 20,
                slot: 3,
            },
            Slice::Cross {
                at: 1,
                crossing: 20,
                slot: 3,
            },
        ],
        SliceFault::Label { slice: 3 },
    ),
    (
        &[
            CAP,
            Slice::Cross {
                at: 1,
                crossing: 20,
                slot: 3,
            },
            Slice::Cup { at: 1 },
            CAP,
            CAP,
        ],
        SliceFault::Ends { strands: 4 },
    ),
];

const CAP: Slice = Slice::Cap { at: 1 };

/// The first is named, and at one slice a place stands before a label.
#[test]
fn lists_name_their_first_fault(rt: HostRuntime) -> Result<(), Fail> {
    for (slices, fault) in FAULTS {
        assert!(rt; fault_of(slices) == Some(*fault));
    }
    Ok(())
}

/// Caps beside up to 62 strands have a place, and cups that close up to 255 loops.
#[test]
fn lists_have_their_limits(rt: HostRuntime) -> Result<(), Fail> {
    let caps = repeated(rt.alloc(), &[CAP], 32)?;
    assert!(rt; fault_of(&caps) == Some(SliceFault::Ends { strands: 64 }));
    let caps = repeated(rt.alloc(), &[CAP], 34)?;
    assert!(rt; fault_of(&caps) == Some(SliceFault::Place { slice: 33 }));
    let loops = repeated(rt.alloc(), &[CAP, Slice::Cup { at: 1 }], 255)?;
    assert!(rt; fault_of(&loops) == None);
    let loops = repeated(rt.alloc(), &[CAP, Slice::Cup { at: 1 }], 256)?;
    assert!(rt; fault_of(&loops) == Some(SliceFault::Loops { slice: 512 }));
    Ok(())
}

fn fault_of(slices: &[Slice]) -> Option<SliceFault> {
    if slices.len() > 4096 {
        return None;
    }
    joins_of(slices).err()
}

fn repeated(alloc: Global, slices: &[Slice], times: u16) -> Result<Vec<Slice>, Fail> {
    let mut list = Vec::new(alloc);
    for _ in 0..times {
        list.extend_from_slice(slices)?;
    }
    Ok(list)
}

/// Known diagrams that are drawn and read back have their arcs and loops.
#[test]
fn known_drawings_join_their_arcs(rt: HostRuntime) -> Result<(), Fail> {
    for crossings in [
        CURL,
        HOPF,
        TREFOIL,
        FIGURE_EIGHT,
        WHITEHEAD,
        TORUS_KNOT,
        TWENTY_CURLS,
    ] {
        let diagram = diagram_of(crossings, 8)?;
        let slices = slices(rt.alloc(), &diagram)?;
        let wanted = arcs_of(rt.alloc(), crossings)?;
        assert!(rt; joins_are(&slices, &wanted, 8));
    }
    Ok(())
}

fn joins_are(slices: &[Slice], pairs: &[Pair], loops: u8) -> bool {
    if slices.len() > 4096 {
        return false;
    }
    match joins_of(slices) {
        Ok(joins) => joins.pairs.as_slice() == pairs && joins.loops == loops,
        Err(_) => false,
    }
}

/// The two darts of each arc, looked for among all darts.
fn arcs_of(alloc: Global, crossings: &[[u8; 4]]) -> Result<Vec<Pair>, Fail> {
    let mut pairs = Vec::new(alloc);
    for place in 0..80u8 {
        for later in 0..80u8 {
            let arc = arc_at(crossings, place);
            if place < later && arc != 0 && arc == arc_at(crossings, later) {
                pairs.push(Pair([dart_at(place), dart_at(later)]))?;
            }
        }
    }
    Ok(pairs)
}

fn arc_at(crossings: &[[u8; 4]], place: u8) -> u8 {
    match crossings.get(place as usize / 4) {
        Some(slots) => slots[place as usize % 4],
        None => 0,
    }
}
