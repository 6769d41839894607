//! Tables by way of all blocks at once, against those of the plain cube.

use super::{FIGURE_EIGHT, TREFOIL, diagram_of, plain_text, text_of};
use kh_types::Diagram;
use prime_field::{F2, F3, PrimeField};
use shared_block::{blocks_of, finish_all, table_of};
use std::alloc::Global;
use std::test::Fail;

/// A knot with torsion of order 2, another knot, and a link with a loop beside it.
const DIAGRAMS: &[(&[[u8; 4]], u8)] = &[
    (TREFOIL, 0),
    (FIGURE_EIGHT, 0),
    (&[[4, 1, 3, 2], [2, 3, 1, 4]], 1),
];

#[test]
fn all_blocks_together_give_the_table_of_the_plain_cube(rt: HostRuntime) -> Result<(), Fail> {
    for (crossings, loops) in DIAGRAMS {
        let diagram = diagram_of(crossings, *loops)?;
        let two = text_by_blocks::<F2>(rt.alloc(), &diagram)?;
        assert_eq!(rt; two, plain_text(rt.alloc(), 2, &diagram)?, "{crossings:?}");
        let three = text_by_blocks::<F3>(rt.alloc(), &diagram)?;
        assert_eq!(rt;
            three,
            plain_text(rt.alloc(), 3, &diagram)?,
            "{crossings:?}"
        );
    }
    Ok(())
}

fn text_by_blocks<F: PrimeField>(alloc: Global, diagram: &Diagram) -> Result<String, Fail> {
    cube_signs::check_size(diagram)?;
    let mut blocks = blocks_of::<F>(alloc, diagram)?;
    finish_all(alloc, &mut blocks)?;
    let table = table_of(alloc, diagram, &blocks)?;
    Ok(text_of(alloc, &table)?)
}
