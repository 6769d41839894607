//! Reduced blocks and tables: that the calls succeed where there is memory, and worked blocks.

ghost use Rattle.std.specs.Prelude.{◌≤◌};
ghost use Rattle.circle_smoothing.specs.GeneratorCounts.{generator_count};
ghost use Rattle.circle_smoothing.specs.declared.limits.TheConstants.{GENERATORS};
ghost use Rattle.kh_types.specs.CircleNumbers.{IsName};

use homology_tables::Row;
use kh_types::Diagram;
use known_links::{TREFOIL, diagram_of};
use prime_field::{F3, PrimeField};
use reduced_cube::laws::known_marks;
use reduced_cube::{reduced_columns, reduced_degrees, reduced_table};
use sparse_block::Complex;
use std::alloc::Global;
use std::process::Abort;
use std::test::Fail;

/// A block: its reduced quantum degree, its places at the homological degrees from -3 to 3, and one
/// of its entries, if it has any: the degree of its column, its row, its column and its value.
type Block = (i16, [u32; 7], Option<(i16, u32, u32, u8)>);

/// A mark of the trefoil with some loops beside it, its blocks and the rows of its table over three
/// elements.
struct Marked {
    loops: u8,
    mark: u8,
    blocks: &'static [Block],
    rows: &'static [(i16, i16, u32)],
}

/// A mark on an arc, and one on a loop. The values are from `tests/plain/cube.py`; those of the
/// loop are the trefoil's own, since v- on the loop lowers each quantum degree by one.
const MARKED: &[Marked] = &[
    Marked {
        loops: 0,
        mark: 1,
        blocks: &[
            (-8, [1, 0, 0, 0, 0, 0, 0], None),
            (-6, [2, 3, 0, 0, 0, 0, 0], Some((-3, 2, 0, 1))),
            (-4, [1, 3, 3, 1, 0, 0, 0], Some((-2, 2, 1, 2))),
            (-2, [0, 0, 0, 1, 0, 0, 0], None),
        ],
        rows: &[(-8, -3, 1), (-6, -2, 1), (-2, 0, 1)],
    },
    Marked {
        loops: 1,
        mark: 7,
        blocks: &[
            (-9, [1, 0, 0, 0, 0, 0, 0], None),
            (-7, [3, 3, 0, 0, 0, 0, 0], Some((-3, 1, 2, 1))),
            (-5, [3, 6, 3, 1, 0, 0, 0], Some((-1, 0, 1, 2))),
            (-3, [1, 3, 3, 2, 0, 0, 0], Some((-2, 1, 0, 2))),
            (-1, [0, 0, 0, 1, 0, 0, 0], None),
        ],
        rows: &[(-9, -3, 1), (-5, -2, 1), (-3, 0, 1), (-1, 0, 1)],
    },
];

#[test]
fn marks_on_an_arc_and_on_a_loop_have_their_blocks_and_tables(rt: HostRuntime) -> Result<(), Fail> {
    for marked in MARKED {
        let diagram = diagram_of(TREFOIL, marked.loops)?;
        let table = reduced_table::<F3>(rt.alloc(), &diagram, marked.mark)?;
        assert_eq!(rt; table.rows().len(), marked.rows.len());
        for (row, wanted) in table.rows().iter().zip(marked.rows) {
            let (j, i, dim) = *wanted;
            assert_eq!(rt; *row, Row { j, i, dim });
        }
        known_marks();
        check_blocks(&rt, rt.alloc(), &diagram, marked.mark, marked.blocks)?;
    }
    Ok(())
}

/// The degrees that have a generator are those of these blocks, and the blocks there are these.
fn check_blocks(
    rt: &impl Abort,
    alloc: Global,
    diagram: &Diagram,
    mark: u8,
    blocks: &[Block],
) -> Result<(), Fail>
    requires mark { IsName diagram.now mark }
    requires size { generator_count diagram.now ≤ GENERATORS }
{
    let degrees = reduced_degrees(alloc, diagram, mark)?;
    assert_eq!(rt; degrees.len(), blocks.len());
    for k in 0..degrees.len() {
        let (j, alive, entry) = blocks[k];
        assert_eq!(rt; degrees[k], j);
        let block = reduced_columns::<F3>(alloc, diagram, mark, degrees[k])?;
        check_block(rt, &block, alive, entry);
    }
    Ok(())
}

/// A block has so many places alive at the degrees from -3 to 3, and this entry.
fn check_block(
    rt: &impl Abort,
    block: &Complex<F3>,
    alive: [u32; 7],
    entry: Option<(i16, u32, u32, u8)>,
) {
    for k in 0..7usize {
        assert_eq!(rt; block.alive(k as i16 - 3), alive[k]);
    }
    assert_eq!(rt; block.is_zero(), entry.is_none());
    if let Some((i, row, column, value)) = entry {
        assert_eq!(rt; value_at(block, i, row, column), Some(value));
    }
}

/// The value of the entry at a row and a column, if the block has it.
fn value_at(block: &Complex<F3>, i: i16, row: u32, column: u32) -> Option<u8> {
    if block.low() <= i
        && i <= block.high()
        && i < 3
        && column < block.places(i)
        && row < block.places(i + 1)
    {
        return Some(block.entry(i, row, column).value());
    }
    None
}
