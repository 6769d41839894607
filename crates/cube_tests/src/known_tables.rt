//! The tables of known links, and that of the plain cube.

mod all_blocks;
mod same_blocks;

use arrayvec::ArrayVec;
use cube_signs::check_size;
use homology_tables::{Row, Table};
use kh_types::{Crossing, Diagram, NoMemory, RawCode};
use plain_table::table_text_of;
use prime_field::{F2, F3, F5, F7, PrimeField};
use shared_block::homology_table;
use std::alloc::Global;
use std::test::Fail;

/// A link, and rows of its table over some fields: the quantum degree, the homological degree and
/// the dimension.
struct Known {
    name: &'static str,
    crossings: &'static [[u8; 4]],
    loops: u8,
    fields: &'static [u8],
    rows: &'static [(i16, i16, u32)],
}

const ALL_FIELDS: &[u8] = &[2, 3, 5, 7];

const ODD_FIELDS: &[u8] = &[3, 5, 7];

const TREFOIL: &[[u8; 4]] = &[[1, 4, 2, 5], [3, 6, 4, 1], [5, 2, 6, 3]];

const FIGURE_EIGHT: &[[u8; 4]] = &[[4, 2, 5, 1], [8, 6, 1, 5], [6, 3, 7, 4], [2, 7, 3, 8]];

const TORUS_KNOT: &[[u8; 4]] = &[
    [4, 2, 5, 1],
    [8, 4, 9, 3],
    [9, 15, 10, 14],
    [5, 13, 6, 12],
    [13, 7, 14, 6],
    [11, 1, 12, 16],
    [15, 11, 16, 10],
    [2, 8, 3, 7],
];

/// Over odd fields the tables of knots are those of the Knot Atlas over the rationals, since these
/// knots have torsion of order 2 alone. A Python program written from the definition of the cube,
/// with ranks by row reduction, gave the same and those over two elements.
const KNOWN: &[Known] = &[
    Known {
        name: "the empty link",
        crossings: &[],
        loops: 0,
        fields: ALL_FIELDS,
        rows: &[(0, 0, 1)],
    },
    Known {
        name: "the unlink of two components",
        crossings: &[],
        loops: 2,
        fields: ALL_FIELDS,
        rows: &[(-2, 0, 1), (0, 0, 2), (2, 0, 1)],
    },
    Known {
        name: "the unlink of two components, with two curls",
        crossings: &[[1, 1, 2, 2], [3, 3, 4, 4]],
        loops: 0,
        fields: ALL_FIELDS,
        rows: &[(-2, 0, 1), (0, 0, 2), (2, 0, 1)],
    },
    Known {
        name: "the Hopf link",
        crossings: &[[4, 1, 3, 2], [2, 3, 1, 4]],
        loops: 0,
        fields: ALL_FIELDS,
        rows: &[(-6, -2, 1), (-4, -2, 1), (-2, 0, 1), (0, 0, 1)],
    },
    Known {
        name: "3_1",
        crossings: TREFOIL,
        loops: 0,
        fields: &[2],
        rows: &[
            (-9, -3, 1),
            (-7, -3, 1),
            (-7, -2, 1),
            (-5, -2, 1),
            (-3, 0, 1),
            (-1, 0, 1),
        ],
    },
    Known {
        name: "3_1 over odd fields",
        crossings: TREFOIL,
        loops: 0,
        fields: ODD_FIELDS,
        rows: &[(-9, -3, 1), (-5, -2, 1), (-3, 0, 1), (-1, 0, 1)],
    },
    Known {
        name: "4_1 over odd fields",
        crossings: FIGURE_EIGHT,
        loops: 0,
        fields: ODD_FIELDS,
        rows: &[
            (-5, -2, 1),
            (-1, -1, 1),
            (-1, 0, 1),
            (1, 0, 1),
            (1, 1, 1),
            (5, 2, 1),
        ],
    },
    Known {
        name: "8_19",
        crossings: TORUS_KNOT,
        loops: 0,
        fields: &[2],
        rows: &[
            (5, 0, 1),
            (7, 0, 1),
            (9, 2, 1),
            (11, 2, 1),
            (11, 3, 1),
            (11, 4, 1),
            (13, 3, 1),
            (13, 4, 1),
            (15, 5, 1),
            (17, 5, 1),
        ],
    },
    Known {
        name: "8_19 over odd fields",
        crossings: TORUS_KNOT,
        loops: 0,
        fields: ODD_FIELDS,
        rows: &[
            (5, 0, 1),
            (7, 0, 1),
            (9, 2, 1),
            (11, 4, 1),
            (13, 3, 1),
            (13, 4, 1),
            (15, 5, 1),
            (17, 5, 1),
        ],
    },
];

#[test]
fn known_links_have_their_tables(rt: HostRuntime) -> Result<(), Fail> {
    for known in KNOWN {
        let diagram = diagram_of(known.crossings, known.loops)?;
        for field in known.fields {
            let table = table_over(rt.alloc(), *field, &diagram)?;
            assert_eq!(rt; table.field(), *field, "{}", known.name);
            assert_eq!(rt;
                table.rows().len(),
                known.rows.len(),
                "{} over {field}",
                known.name
            );
            for (row, wanted) in table.rows().iter().zip(known.rows) {
                let (j, i, dim) = *wanted;
                assert_eq!(rt; *row, Row { j, i, dim }, "{} over {field}", known.name);
            }
        }
    }
    Ok(())
}

/// Small diagrams: unknots with curls of both signs, links and parts that lie apart.
const SMALL: &[(&[[u8; 4]], u8)] = &[
    (&[], 3),
    (&[[1, 1, 2, 2]], 1),
    (&[[1, 2, 2, 1]], 0),
    (&[[1, 4, 2, 3], [2, 4, 1, 3]], 0),
    (&[[1, 3, 2, 4], [3, 1, 4, 2]], 1),
    (&[[4, 2, 5, 1], [6, 4, 1, 3], [2, 6, 3, 5]], 0),
    (TREFOIL, 1),
    (FIGURE_EIGHT, 0),
];

#[test]
fn small_diagrams_have_the_tables_of_the_plain_cube(rt: HostRuntime) -> Result<(), Fail> {
    for (crossings, loops) in SMALL {
        let diagram = diagram_of(crossings, *loops)?;
        for field in ALL_FIELDS {
            let table = table_over(rt.alloc(), *field, &diagram)?;
            let plain = plain_text(rt.alloc(), *field, &diagram)?;
            assert_eq!(rt;
                text_of(rt.alloc(), &table)?,
                plain,
                "{crossings:?} over {field}"
            );
        }
    }
    Ok(())
}

/// Diagrams before and after a move: a slide, and a finger of one half of a curl over the other.
const MOVED: &[(&[[u8; 4]], &[[u8; 4]])] = &[
    (
        &[[5, 2, 6, 1], [3, 3, 4, 2], [4, 5, 1, 6]],
        &[[6, 3, 5, 2], [4, 2, 1, 1], [3, 6, 4, 5]],
    ),
    (&[[1, 1, 2, 2]], &[[3, 1, 4, 6], [4, 1, 5, 2], [5, 3, 6, 2]]),
];

#[test]
fn moves_keep_the_tables(rt: HostRuntime) -> Result<(), Fail> {
    for (before, after) in MOVED {
        for field in [2, 3] {
            let table = table_over(rt.alloc(), field, &diagram_of(before, 0)?)?;
            let moved = table_over(rt.alloc(), field, &diagram_of(after, 0)?)?;
            assert!(rt; table.rows() == moved.rows());
        }
    }
    Ok(())
}

fn table_over(alloc: Global, field: u8, diagram: &Diagram) -> Result<Table, Fail> {
    check_size(diagram)?;
    let table = match field {
        2 => homology_table::<F2>(alloc, diagram),
        3 => homology_table::<F3>(alloc, diagram),
        5 => homology_table::<F5>(alloc, diagram),
        _ => homology_table::<F7>(alloc, diagram),
    };
    Ok(table?)
}

fn plain_text(alloc: Global, field: u8, diagram: &Diagram) -> Result<String, NoMemory> {
    match field {
        2 => table_text_of::<F2>(alloc, diagram),
        3 => table_text_of::<F3>(alloc, diagram),
        5 => table_text_of::<F5>(alloc, diagram),
        _ => table_text_of::<F7>(alloc, diagram),
    }
}

/// The lines of a table, as the plain cube writes them.
fn text_of(alloc: Global, table: &Table) -> Result<String, NoMemory> {
    let mut text = format!(in alloc; "table 2\nfield {}\n", table.field())?;
    for row in table.rows() {
        let (j, i, dim) = (row.j, row.i, row.dim);
        text.push_str(format!(in alloc; "j {j} i {i} dim {dim}\n")?.as_str())?;
    }
    Ok(text)
}

fn diagram_of(arcs: &[[u8; 4]], loops: u8) -> Result<Diagram, Fail> {
    let mut crossings = ArrayVec::new();
    for slots in arcs {
        let _ = crossings.try_push(Crossing(*slots));
    }
    Ok(Diagram::try_new(&RawCode { crossings, loops })?)
}
