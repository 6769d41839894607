//! Patches that are made of one block and offered to another. What is copied for a pivot, and the
//! least column where it differs, was found by `tests/plain/cube.py` and ten lines that compare. It
//! is the same over all four fields.

use super::{block_of_hopf_link, take_turns};
use cube_signs::check_size;
use known_links::{FIGURE_EIGHT, HOPF, diagram_of};
use prime_field::{F2, F3, F5, F7, PrimeField};
use shared_block::{CommitAnswer, SharedBlock, blocks_of};
use sparse_block::Pivot;
use std::alloc::Global;
use std::process::Abort;
use std::test::Fail;

/// The first pivot of a block that stands at this place among the blocks of its link: its degree;
/// and for each block the least column at which its patch shows as foreign.
struct Handed {
    place: usize,
    degree: i16,
    columns: &'static [u32],
}

/// The blocks from -3 to 3: those at -5 and at 5 have one generator each, and no pivot. At a
/// block's own place nothing differs, and 9 stands for no column.
const OF_FIGURE_EIGHT: &[Handed] = &[
    Handed {
        place: 1,
        degree: -1,
        columns: &[2, 9, 0, 0, 2, 2],
    },
    Handed {
        place: 2,
        degree: 1,
        columns: &[0, 0, 9, 0, 0, 0],
    },
    Handed {
        place: 3,
        degree: 1,
        columns: &[0, 0, 0, 9, 0, 0],
    },
    Handed {
        place: 4,
        degree: 1,
        columns: &[0, 0, 0, 0, 9, 0],
    },
];

/// The blocks at -4 and at -2, to those from -6 to 0.
const OF_HOPF: &[Handed] = &[
    Handed {
        place: 1,
        degree: -1,
        columns: &[0, 9, 0, 0],
    },
    Handed {
        place: 2,
        degree: -1,
        columns: &[0, 0, 9, 0],
    },
];

/// How many turns each of these blocks takes over two elements: the sum of its ranks, by
/// `tests/plain/cube.py`.
const TURNS: [u64; 6] = [0, 3, 11, 11, 3, 0];

#[test]
fn patches_are_foreign_to_all_other_blocks(rt: HostRuntime) -> Result<(), Fail> {
    let alloc = rt.alloc();
    let diagram = diagram_of(FIGURE_EIGHT, 0)?;
    check_size(&diagram)?;
    let mut blocks = blocks_of(alloc, &diagram)?;
    assert!(rt; blocks.len() == TURNS.len());
    for handed in OF_FIGURE_EIGHT {
        for place in 0..TURNS.len() {
            if place != handed.place {
                hand_over(&rt, alloc, &mut blocks, handed, place)?;
            }
        }
    }
    for place in 0..TURNS.len().min(blocks.len()) {
        assert!(rt; take_turns(&rt, alloc, &mut blocks[place])? == TURNS[place]);
        has_no_pivot(&rt, alloc, &mut blocks[place])?;
    }
    Ok(())
}

/// Hands a patch of a block to the block at another place, which it leaves as it is.
fn hand_over<F: PrimeField>(
    rt: &impl Abort,
    alloc: Global,
    blocks: &mut [SharedBlock<F>],
    handed: &Handed,
    place: usize,
) -> Result<(), Fail> {
    if handed.place < blocks.len() && place < blocks.len() && place < handed.columns.len() {
        let look = blocks[handed.place].look(alloc, 0)?;
        assert!(rt; look.is_some());
        if let Some(look) = look {
            let patch = look.patch(alloc)?;
            let alive = blocks[place].alive();
            let foreign = CommitAnswer::Foreign {
                degree: handed.degree,
                column: handed.columns[place],
            };
            assert!(rt; blocks[place].commit(patch) == foreign);
            assert!(rt; blocks[place].version() == 0 && blocks[place].alive() == alive);
        }
    }
    Ok(())
}

/// In a block that is cancelled to zero no entry is found, and none is where its last pivot was or
/// where others are.
fn has_no_pivot(rt: &impl Abort, alloc: Global, block: &mut SharedBlock<F2>) -> Result<(), Fail> {
    assert!(rt; block.look(alloc, 0)?.is_none());
    let other = Pivot {
        degree: 0,
        column: 0,
        row: 0,
    };
    let last = block.history().last().copied().unwrap_or(other);
    let version = block.version();
    let mut scratch = Vec::new(alloc);
    assert!(rt; !block.cancel_at(&mut scratch, last)?);
    assert!(rt; !block.cancel_at(&mut scratch, other)?);
    assert!(rt; block.version() == version);
    Ok(())
}

/// Rows of a table: the quantum degree, the homological degree and the dimension.
type Rows = &'static [(i16, i16, u32)];

/// The table of the Hopf link over any field (Knot Atlas, "L2a1").
const ROWS_OF_HOPF: Rows = &[(-6, -2, 1), (-4, -2, 1), (-2, 0, 1), (0, 0, 1)];

/// The table of the figure eight over odd fields (Knot Atlas, "4_1").
const ROWS_OF_FIGURE_EIGHT: Rows = &[
    (-5, -2, 1),
    (-1, -1, 1),
    (-1, 0, 1),
    (1, 0, 1),
    (1, 1, 1),
    (5, 2, 1),
];

#[test]
fn foreign_patches_leave_the_dimensions(rt: HostRuntime) -> Result<(), Fail> {
    let alloc = rt.alloc();
    check_dimensions::<F2>(&rt, alloc, HOPF, OF_HOPF, ROWS_OF_HOPF)?;
    check_dimensions::<F3>(&rt, alloc, HOPF, OF_HOPF, ROWS_OF_HOPF)?;
    let (handed, rows) = (OF_FIGURE_EIGHT, ROWS_OF_FIGURE_EIGHT);
    check_dimensions::<F3>(&rt, alloc, FIGURE_EIGHT, handed, rows)?;
    check_dimensions::<F5>(&rt, alloc, FIGURE_EIGHT, handed, rows)?;
    check_dimensions::<F7>(&rt, alloc, FIGURE_EIGHT, handed, rows)
}

/// Offers each block the patches of the others, finishes it, and compares its dimensions with the
/// rows of the link's table.
fn check_dimensions<F: PrimeField>(
    rt: &impl Abort,
    alloc: Global,
    crossings: &[[u8; 4]],
    handed: &[Handed],
    rows: &[(i16, i16, u32)],
) -> Result<(), Fail> {
    let diagram = diagram_of(crossings, 0)?;
    check_size(&diagram)?;
    let mut blocks = blocks_of::<F>(alloc, &diagram)?;
    for place in 0..blocks.len() {
        for one in handed {
            if place != one.place {
                hand_over(rt, alloc, &mut blocks, one, place)?;
            }
        }
    }
    for mut block in blocks {
        block.finish(alloc)?;
        has_dimensions(rt, &block, rows);
    }
    Ok(())
}

/// A block that is cancelled to zero has the dimensions of a table's rows.
fn has_dimensions<F: PrimeField>(
    rt: &impl Abort,
    block: &SharedBlock<F>,
    rows: &[(i16, i16, u32)],
) {
    assert!(rt; block.is_zero());
    for i in -5..=5i16 {
        let wanted = rows
            .iter()
            .find(|row| row.0 == block.degree() && row.1 == i)
            .map_or(0, |row| row.2);
        assert!(rt; block.dim(i) == wanted);
    }
}

/// The block at 0 has one generator, at degree 0, so all its columns out of degree -1 are empty.
/// The first pivot of the block at -2 is out of this degree, and column 0 is the first that is
/// copied for it.
#[test]
fn a_patch_of_the_hopf_link_at_minus_2_is_foreign_at_0(rt: HostRuntime) -> Result<(), Fail> {
    let alloc = rt.alloc();
    let below = block_of_hopf_link(alloc, 2)?;
    let mut block = block_of_hopf_link(alloc, 3)?;
    assert!(rt; below.degree() == -2 && block.degree() == 0);
    let Some(look) = below.look(alloc, 0)? else {
        panic!(rt; "the block at -2 has pivots");
    };
    let foreign = CommitAnswer::Foreign {
        degree: -1,
        column: 0,
    };
    assert!(rt; block.commit(look.patch(alloc)?) == foreign);
    assert!(rt; block.version() == 0 && block.alive() == 1);
    Ok(())
}
