//! The components of known diagrams.

use known_links::{HOPF, TREFOIL, diagram_of};
use orient_arcs::{components, next};
use std::process::Abort;
use std::test::Fail;

const BORROMEAN_RINGS: [[u8; 4]; 6] = [
    [6, 1, 7, 2],
    [12, 8, 9, 7],
    [4, 12, 1, 11],
    [10, 5, 11, 6],
    [8, 4, 5, 3],
    [2, 9, 3, 10],
];

const ARCS_OF_THE_RINGS: [(u8, u8); 12] = [
    (0, 2),
    (0, 3),
    (0, 4),
    (0, 1),
    (1, 6),
    (1, 7),
    (1, 8),
    (1, 5),
    (2, 10),
    (2, 11),
    (2, 12),
    (2, 9),
];

/// Of each component its first arc and its length, and of each arc the number of its component and
/// the arc that follows, worked by hand from the codes: two curls, and from the Knot Atlas the Hopf
/// link (L2a1), the trefoil (3_1) and the Borromean rings (L6a4). Two loops are added to each,
/// which are not counted.
#[test]
fn known_diagrams_have_their_components(rt: HostRuntime) -> Result<(), Fail> {
    for (crossings, wanted, arcs) in [
        ([].as_slice(), [].as_slice(), [].as_slice()),
        (
            &[[1, 1, 2, 2], [3, 3, 4, 4]],
            &[(1, 2), (3, 2)],
            &[(0, 2), (0, 1), (1, 4), (1, 3)],
        ),
        (HOPF, &[(1, 2), (3, 2)], &[(0, 2), (0, 1), (1, 4), (1, 3)]),
        (
            TREFOIL,
            &[(1, 6)],
            &[(0, 2), (0, 3), (0, 4), (0, 5), (0, 6), (0, 1)],
        ),
        (
            &BORROMEAN_RINGS,
            &[(1, 4), (5, 4), (9, 4)],
            &ARCS_OF_THE_RINGS,
        ),
    ] {
        has_components(&rt, crossings, wanted, arcs)?;
    }
    Ok(())
}

/// A diagram has these components and arcs, and two loops.
fn has_components(
    rt: &impl Abort,
    crossings: &[[u8; 4]],
    wanted: &[(u8, u8)],
    arcs: &[(u8, u8)],
) -> Result<(), Fail> {
    let diagram = diagram_of(crossings, 2)?;
    let found = components(&diagram);
    assert_eq!(rt; found.count() as usize, wanted.len(), "{crossings:?}");
    for component in 0..found.count() {
        let is = (found.first(component), found.length(component));
        assert_eq!(rt; wanted.get(component as usize), Some(&is), "{crossings:?}");
    }
    for arc in 1..=2 * diagram.count() {
        let is = (found.of_arc(arc), next(&diagram, arc));
        assert_eq!(rt;
            arcs.get(arc as usize - 1),
            Some(&is),
            "{arc} of {crossings:?}"
        );
    }
    Ok(())
}
