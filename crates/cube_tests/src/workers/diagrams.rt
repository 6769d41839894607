//! Diagrams for the tests of workers.

use known_links::{CURL, FIGURE_EIGHT, HOPF, TORUS_KNOT, TREFOIL};

/// Crossings and loops: unknots, links, parts that lie apart, and knots with up to eight crossings.
pub const DIAGRAMS: &[(&[[u8; 4]], u8)] = &[
    (&[], 0),
    (&[], 3),
    (CURL, 1),
    (&[[1, 2, 2, 1]], 0),
    (&[[1, 1, 2, 2], [3, 3, 4, 4]], 0),
    (HOPF, 0),
    (&[[1, 3, 2, 4], [3, 1, 4, 2]], 1),
    (TREFOIL, 0),
    (&[[4, 2, 5, 1], [6, 4, 1, 3], [2, 6, 3, 5]], 0),
    (FIGURE_EIGHT, 1),
    (TORUS_KNOT, 0),
];

/// How many pivots all blocks of the figure eight take over two elements: of 66 generators, pairs
/// are cancelled until there are as many as dimensions, 10.
pub const FIGURE_EIGHT_TURNS: u64 = 28;
