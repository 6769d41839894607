//! Mirrors, reversals and unions of known links. The codes were worked by hand from their rules.

use crate::moves::{OVER_CIRCLE, TWENTY_CURLS};
use known_links::{CURL, FIGURE_EIGHT, HOPF, TORUS_KNOT, TREFOIL, WHITEHEAD, diagram_of};
use link_algebra::{UnionFault, mirror, reverse, union};
use std::test::Fail;

/// A circle that lies under another, and enters the first listed crossing on its second arc.
const UNDER_CIRCLE: &[[u8; 4]] = &[[2, 4, 1, 3], [1, 4, 2, 3]];

const LINKS: &[&[[u8; 4]]] = &[
    &[],
    CURL,
    HOPF,
    OVER_CIRCLE,
    UNDER_CIRCLE,
    TREFOIL,
    FIGURE_EIGHT,
    WHITEHEAD,
    TORUS_KNOT,
    TWENTY_CURLS,
];

#[test]
fn worked_mirrors_and_reversals(rt: HostRuntime) -> Result<(), Fail> {
    let right = diagram_of(&[[4, 2, 5, 1], [6, 4, 1, 3], [2, 6, 3, 5]], 3)?;
    assert!(rt; mirror(&diagram_of(TREFOIL, 3)?) == right);
    let turned = diagram_of(&[[6, 3, 1, 4], [4, 1, 5, 2], [2, 5, 3, 6]], 0)?;
    assert!(rt; reverse(&diagram_of(TREFOIL, 0)?) == turned);
    let over = diagram_of(&[[3, 1, 4, 2], [4, 1, 3, 2]], 0)?;
    assert!(rt; mirror(&diagram_of(UNDER_CIRCLE, 0)?) == over);
    Ok(())
}

/// A reversal of a reversal is the diagram. A mirror of a mirror is, but where a circle of two arcs
/// lies under another and enters the first listed crossing on its second arc.
#[test]
fn mirrors_and_reversals_come_back(rt: HostRuntime) -> Result<(), Fail> {
    for link in LINKS {
        let diagram = diagram_of(link, 2)?;
        assert!(rt; reverse(&reverse(&diagram)) == diagram);
        let once = mirror(&diagram);
        assert!(rt; once.plus() == diagram.minus());
        let twice = mirror(&once);
        assert!(rt; (twice == diagram) == (*link != UNDER_CIRCLE));
        assert!(rt; mirror(&twice) == once);
    }
    Ok(())
}

#[test]
fn worked_unions(rt: HostRuntime) -> Result<(), Fail> {
    let curl = diagram_of(CURL, 3)?;
    let hopf = diagram_of(HOPF, 5)?;
    let both = diagram_of(&[[1, 1, 2, 2], [6, 3, 5, 4], [4, 5, 3, 6]], 8)?;
    assert!(rt; union(&curl, &hopf) == Ok(both));
    let other = diagram_of(&[[4, 1, 3, 2], [2, 3, 1, 4], [5, 5, 6, 6]], 8)?;
    assert!(rt; union(&hopf, &curl) == Ok(other));
    let empty = diagram_of(&[], 0)?;
    assert!(rt; union(&empty, &hopf) == Ok(hopf));
    assert!(rt; union(&hopf, &empty) == Ok(hopf));
    Ok(())
}

/// Twenty crossings and eight loops fit; one more of either does not, and crossings come first.
#[test]
fn unions_have_limits(rt: HostRuntime) -> Result<(), Fail> {
    let twenty = diagram_of(TWENTY_CURLS, 8)?;
    let curl = diagram_of(CURL, 0)?;
    let a_loop = diagram_of(&[], 1)?;
    let loops = diagram_of(&[], 7)?;
    let eight = diagram_of(&[], 8)?;
    assert!(rt; union(&diagram_of(TWENTY_CURLS, 0)?, &eight) == Ok(twenty));
    assert!(rt; union(&loops, &a_loop) == Ok(eight));
    assert!(rt; union(&twenty, &curl) == Err(UnionFault::Crossings { count: 21 }));
    assert!(rt; union(&curl, &twenty) == Err(UnionFault::Crossings { count: 21 }));
    assert!(rt; union(&twenty, &a_loop) == Err(UnionFault::Loops { count: 9 }));
    assert!(rt; union(&eight, &a_loop) == Err(UnionFault::Loops { count: 9 }));
    let both = diagram_of(CURL, 1)?;
    assert!(rt; union(&twenty, &both) == Err(UnionFault::Crossings { count: 21 }));
    assert!(rt; union(&twenty, &twenty) == Err(UnionFault::Crossings { count: 40 }));
    Ok(())
}
