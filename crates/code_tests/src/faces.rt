//! The faces and pieces of known diagrams.

use face_walk::{faces, left_of, piece_of, pieces, right_of};
use known_links::{FIGURE_EIGHT, HOPF, TREFOIL, diagram_of};
use std::test::Fail;

/// The slots of each crossing; the lengths of the faces, in order; the faces at the left and at the
/// right of each arc; the pieces of the crossings. They were found by a Python program that was
/// written for this test from the rule of the face step.
struct Row {
    crossings: &'static [[u8; 4]],
    lengths: &'static [u8],
    sides: &'static [(u8, u8)],
    pieces: &'static [u8],
}

const ROWS: &[Row] = &[
    Row {
        crossings: &[],
        lengths: &[],
        sides: &[],
        pieces: &[],
    },
    Row {
        crossings: &[[1, 1, 2, 2]],
        lengths: &[1, 2, 1],
        sides: &[(1, 0), (2, 1)],
        pieces: &[0],
    },
    Row {
        crossings: &[[1, 2, 2, 1]],
        lengths: &[2, 1, 1],
        sides: &[(2, 0), (0, 1)],
        pieces: &[0],
    },
    Row {
        crossings: &[[1, 1, 2, 2], [3, 3, 4, 4]],
        lengths: &[1, 2, 1, 1, 2, 1],
        sides: &[(1, 0), (2, 1), (4, 3), (5, 4)],
        pieces: &[0, 1],
    },
    Row {
        crossings: HOPF,
        lengths: &[2, 2, 2, 2],
        sides: &[(0, 1), (3, 2), (2, 1), (3, 0)],
        pieces: &[0, 0],
    },
    Row {
        crossings: &[[1, 4, 2, 3], [2, 4, 1, 3]],
        lengths: &[2, 2, 2, 2],
        sides: &[(3, 0), (2, 1), (2, 3), (1, 0)],
        pieces: &[0, 0],
    },
    Row {
        crossings: TREFOIL,
        lengths: &[2, 3, 2, 3, 2],
        sides: &[(3, 0), (2, 1), (3, 4), (0, 1), (3, 2), (4, 1)],
        pieces: &[0, 0, 0],
    },
    Row {
        crossings: FIGURE_EIGHT,
        lengths: &[3, 3, 2, 3, 3, 2],
        sides: &[
            (2, 3),
            (1, 0),
            (4, 5),
            (3, 0),
            (2, 1),
            (3, 4),
            (0, 5),
            (1, 4),
        ],
        pieces: &[0, 0, 0, 0],
    },
];

#[test]
fn known_diagrams_have_these_faces_and_pieces(rt: HostRuntime) -> Result<(), Fail> {
    for row in ROWS {
        let diagram = diagram_of(row.crossings, 3)?;
        let faces = faces(&diagram);
        assert_eq!(rt; faces.count() as usize, row.lengths.len());
        for face in 0..faces.count() {
            let length = faces.length(face);
            assert_eq!(rt;
                row.lengths.get(face as usize),
                Some(&length),
                "{face} of {diagram:?}"
            );
        }
        for arc in 1..=2 * diagram.count() {
            let sides = (left_of(&diagram, arc), right_of(&diagram, arc));
            assert_eq!(rt;
                row.sides.get(arc as usize - 1),
                Some(&sides),
                "{arc} of {diagram:?}"
            );
            assert_eq!(rt; faces.face_of(diagram.tail(arc)), sides.0);
        }
        for crossing in 1..=diagram.count() {
            let piece = piece_of(&diagram, crossing);
            assert!(rt; piece < pieces(&diagram));
            assert_eq!(rt;
                row.pieces.get(crossing as usize - 1),
                Some(&piece),
                "{crossing} of {diagram:?}"
            );
        }
    }
    Ok(())
}
