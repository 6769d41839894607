//! The blocks of a diagram, compared with the plain cube entry by entry. Blocks come from tables of
//! circles and edges, and keep the entries other than zero; the plain cube has each coefficient by
//! its definition. Both have the same degrees, the same generator at each place, and the same
//! entry, zero or not, at each row and column.

ghost use Rattle.std.specs.Prelude.{pos, ◌≤ℤ◌};

use super::diagram_of;
use cube_signs::{Cube, check_size};
use kh_types::Diagram;
use plain_table::Placed;
use prime_field::{F2, F3, F5, F7, PrimeField};
use sparse_block::{Complex, Generator};
use std::alloc::Global;
use std::process::Abort;
use std::test::Fail;

/// The diagrams of at most four crossings in worked examples and in the tests of this repository:
/// the crossings, and how many loops lie beside them.
const DIAGRAMS: &[(&[[u8; 4]], u8)] = &[
    (&[], 0),
    (&[], 1),
    (&[], 2),
    (&[], 3),
    (&[], 5),
    (&[], 8),
    (&[], 9),
    (&[[1, 1, 2, 2]], 0),
    (&[[1, 1, 2, 2]], 1),
    (&[[1, 1, 2, 2]], 2),
    (&[[1, 2, 2, 1]], 0),
    (&[[2, 1, 1, 2]], 0),
    (&[[2, 1, 1, 2]], 1),
    (&[[2, 1, 1, 2]], 3),
    (&[[2, 2, 1, 1]], 0),
    (&[[2, 2, 1, 1]], 2),
    (&[[1, 1, 2, 2], [3, 3, 4, 4]], 0),
    (&[[1, 1, 2, 4], [2, 4, 3, 3]], 0),
    (&[[1, 3, 2, 4], [3, 1, 4, 2]], 0),
    (&[[1, 3, 2, 4], [3, 1, 4, 2]], 1),
    (&[[1, 3, 2, 4], [4, 2, 3, 1]], 0),
    (&[[1, 4, 2, 3], [2, 4, 1, 3]], 0),
    (&[[1, 4, 2, 3], [2, 4, 1, 3]], 1),
    (&[[2, 4, 1, 3], [1, 4, 2, 3]], 0),
    (&[[3, 1, 4, 2], [4, 1, 3, 2]], 0),
    (&[[3, 1, 4, 4], [1, 2, 2, 3]], 0),
    (&[[3, 1, 4, 4], [1, 3, 2, 2]], 0),
    (&[[3, 1, 4, 4], [2, 1, 3, 2]], 0),
    (&[[3, 1, 4, 4], [2, 2, 3, 1]], 0),
    (&[[3, 2, 4, 1], [2, 3, 1, 4]], 0),
    (&[[4, 1, 3, 2], [2, 3, 1, 4]], 0),
    (&[[4, 1, 3, 2], [2, 3, 1, 4]], 1),
    (&[[1, 1, 2, 2], [6, 3, 5, 4], [4, 5, 3, 6]], 0),
    (&[[1, 4, 2, 5], [3, 6, 4, 1], [5, 2, 6, 3]], 0),
    (&[[1, 4, 2, 5], [3, 6, 4, 1], [5, 2, 6, 3]], 1),
    (&[[1, 6, 2, 5], [4, 6, 1, 5], [2, 4, 3, 3]], 0),
    (&[[2, 6, 3, 5], [3, 6, 4, 5], [1, 1, 2, 4]], 0),
    (&[[3, 1, 4, 6], [4, 1, 5, 2], [5, 3, 6, 2]], 0),
    (&[[4, 2, 5, 1], [6, 4, 1, 3], [2, 6, 3, 5]], 0),
    (&[[5, 2, 6, 1], [3, 3, 4, 2], [4, 5, 1, 6]], 0),
    (&[[6, 3, 1, 4], [4, 1, 5, 2], [2, 5, 3, 6]], 0),
    (&[[6, 3, 5, 2], [4, 2, 1, 1], [3, 6, 4, 5]], 0),
    (&[[6, 3, 5, 4], [4, 5, 1, 6], [1, 2, 2, 3]], 0),
    (&[[6, 3, 5, 4], [4, 5, 1, 6], [1, 3, 2, 2]], 0),
    (&[[6, 3, 5, 4], [4, 5, 1, 6], [2, 1, 3, 2]], 0),
    (&[[6, 3, 5, 4], [4, 5, 1, 6], [2, 2, 3, 1]], 0),
    (&[[1, 1, 2, 2], [3, 3, 4, 4], [5, 5, 6, 6], [7, 7, 8, 8]], 0),
    (&[[1, 1, 2, 2], [3, 6, 4, 7], [5, 8, 6, 3], [7, 4, 8, 5]], 0),
    (&[[1, 1, 2, 2], [3, 6, 4, 7], [5, 8, 6, 3], [7, 4, 8, 5]], 1),
    (&[[1, 4, 2, 5], [5, 8, 6, 1], [3, 7, 4, 6], [7, 3, 8, 2]], 0),
    (&[[4, 1, 3, 2], [2, 3, 1, 4], [5, 7, 6, 8], [7, 5, 8, 6]], 0),
    (&[[4, 1, 3, 2], [2, 3, 1, 4], [8, 5, 7, 6], [6, 7, 5, 8]], 0),
    (&[[4, 2, 5, 1], [8, 6, 1, 5], [6, 3, 7, 4], [2, 7, 3, 8]], 0),
    (&[[6, 4, 7, 3], [2, 8, 3, 7], [8, 5, 1, 6], [4, 1, 5, 2]], 0),
];

/// The homological degrees of a diagram of four crossings, from the least to the greatest, and one
/// more on either side.
const MOST: i16 = 5;

/// A block, and the plain cube of the same diagram, to be compared at the block's quantum degree.
#[derive(Clone, Copy)]
struct Pair<'a, F: PrimeField> {
    block: &'a Complex<F>,
    plain: &'a plain_table::Cube,
    j: i16,
}

#[test]
fn blocks_are_those_of_the_plain_cube(rt: HostRuntime) -> Result<(), Fail> {
    for (crossings, loops) in DIAGRAMS {
        let diagram = diagram_of(crossings, *loops)?;
        has_plain_blocks::<F2>(&rt, rt.alloc(), &diagram)?;
        has_plain_blocks::<F3>(&rt, rt.alloc(), &diagram)?;
        has_plain_blocks::<F5>(&rt, rt.alloc(), &diagram)?;
        has_plain_blocks::<F7>(&rt, rt.alloc(), &diagram)?;
    }
    Ok(())
}

/// Each block is the plain cube's, and together they have all generators.
fn has_plain_blocks<F: PrimeField>(
    rt: &impl Abort,
    alloc: Global,
    diagram: &Diagram,
) -> Result<(), Fail> {
    let generators = check_size(diagram)?;
    let cube = Cube::new(alloc, diagram)?;
    let plain = plain_table::Cube::new(alloc, diagram)?;
    let degrees = cube.block_degrees(alloc)?;
    let mut found = 0u64;
    for k in 0..degrees.len() {
        let block: Complex<F> = cube.block(alloc, degrees[k])?;
        let pair = Pair {
            block: &block,
            plain: &plain,
            j: degrees[k],
        };
        found = found.saturating_add(same_places(rt, alloc, pair)?);
    }
    assert_eq!(rt; u128::from(found), generators);
    Ok(())
}

/// A block has the degrees of the plain cube, and in each the same. The number of its places.
fn same_places<F: PrimeField>(rt: &impl Abort, alloc: Global, pair: Pair<F>) -> Result<u64, Fail> {
    let (low, high) = (pair.block.low(), pair.block.high());
    assert!(rt; pair.block.places(low) > 0 && pair.block.places(high) > 0);
    let mut found = 0u64;
    for i in -MOST..MOST + 1 {
        same_degree(rt, alloc, pair, i)?;
        found = found.saturating_add(u64::from(pair.block.places(i)));
    }
    Ok(found)
}

/// A homological degree has the plain cube's generators, in order, and the differential out of it
/// the plain cube's entries.
fn same_degree<F: PrimeField>(
    rt: &impl Abort,
    alloc: Global,
    pair: Pair<F>,
    i: i16,
) -> Result<(), Fail>
    requires { i ≤ℤ pos 5 }
{
    let named = pair.plain.generators_at(alloc, i, pair.j)?;
    let entries = pair.plain.differential::<F>(alloc, i, pair.j)?;
    assert_eq!(rt; pair.block.places(i) as usize, named.len());
    assert_eq!(rt; pair.block.places(i), entries.columns());
    assert_eq!(rt; pair.block.places(i + 1), entries.rows());
    for column in 0..entries.columns() {
        assert_eq!(rt; name_at(pair.block, i, column), plain_name(&named, column));
        for row in 0..entries.rows() {
            let entry = entries.entry(row, column).value();
            assert_eq!(rt; value_at(pair.block, i, row, column), Some(entry));
        }
    }
    Ok(())
}

/// The generator at a place, if the block has it.
fn name_at<F: PrimeField>(block: &Complex<F>, i: i16, place: u32) -> Option<Generator> {
    if block.low() <= i && i <= block.high() && place < block.places(i) {
        return Some(block.name(i, place));
    }
    None
}

/// The generator at a place of a list of the plain cube, if there is one.
fn plain_name(named: &[Placed], place: u32) -> Option<Generator> {
    named.get(place as usize).map(|placed| Generator {
        state: placed.generator.state,
        label: placed.generator.label,
    })
}

/// The value of the entry at a row and a column, if the block has it.
fn value_at<F: PrimeField>(block: &Complex<F>, i: i16, row: u32, column: u32) -> Option<u8>
    requires { i ≤ℤ pos 5 }
{
    if block.low() <= i
        && i <= block.high()
        && column < block.places(i)
        && row < block.places(i + 1)
    {
        return Some(block.entry(i, row, column).value());
    }
    None
}
