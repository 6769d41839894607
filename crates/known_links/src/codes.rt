//! The crossings of known links, each by its four arcs (Knot Atlas, "Planar Diagrams").

/// The unknot with one positive curl.
pub const CURL: &[[u8; 4]] = &[[1, 1, 2, 2]];

/// The Hopf link with two negative crossings.
pub const HOPF: &[[u8; 4]] = &[[4, 1, 3, 2], [2, 3, 1, 4]];

/// The left-handed trefoil.
pub const TREFOIL: &[[u8; 4]] = &[[1, 4, 2, 5], [3, 6, 4, 1], [5, 2, 6, 3]];

/// The figure eight knot.
pub const FIGURE_EIGHT: &[[u8; 4]] = &[[4, 2, 5, 1], [8, 6, 1, 5], [6, 3, 7, 4], [2, 7, 3, 8]];

/// The Whitehead link, as the closed braid s1 s2^-1 s1 s2^-1 s1.
pub const WHITEHEAD: &[[u8; 4]] = &[
    [5, 2, 6, 1],
    [2, 8, 3, 9],
    [9, 7, 10, 6],
    [7, 3, 8, 4],
    [4, 5, 1, 10],
];

/// The knot 8_19, which is the torus knot of three and four strands.
pub const TORUS_KNOT: &[[u8; 4]] = &[
    [4, 2, 5, 1],
    [8, 4, 9, 3],
    [9, 15, 10, 14],
    [5, 13, 6, 12],
    [13, 7, 14, 6],
    [11, 1, 12, 16],
    [15, 11, 16, 10],
    [2, 8, 3, 7],
];
