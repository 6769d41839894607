//! Cancellations of the worked complexes. What they leave was worked out by hand.

ghost use Rattle.std.specs.Prelude.{◌≡◌, map, IfOk};
ghost use Rattle.sparse_block.specs.Changes.{placed};
ghost use Rattle.sparse_block.specs.Entries.{entry_at};
ghost use Rattle.sparse_block.specs.Inside.{lines_in, lists_in};
ghost use Rattle.sparse_block.specs.Worked.{middle_change, middle_columns, middle_complex};
ghost use Rattle.sparse_block.specs.Worked.{middle_names, worked_change};

use super::{column_at, over_five, over_three, row_at};
use crate::made_complexes::{Columns, NONE, labels, line, lines};
use kh_types::NoMemory;
use prime_field::{F3, F5, PrimeField};
use sparse_block::{Change, ColumnComplex, Complex, Entry, Generator, Line};
use std::alloc::Global;
use std::process::Abort;
use std::test::Fail;

fn placed_line(alloc: Global, place: u32, pairs: &[(u32, u8)]) -> Result<Line, NoMemory>
    ensures { IfOk result (λ made. made ≡ placed place (map entry_at pairs.now)) }
{
    let entries = line(alloc, pairs)?;
    Ok(Line { place, entries })
}

fn change_of_two(alloc: Global) -> Result<Change, NoMemory>
    ensures { IfOk result (λ made. made ≡ worked_change) }
{
    let row = [(0, 1), (2, 1), (3, 1), (5, 1)];
    let columns = vec![in alloc;
        placed_line(alloc, 1, &NONE)?,
        placed_line(alloc, 4, &NONE)?,
    ]?;
    let rows = vec![in alloc; placed_line(alloc, 1, &row)?, placed_line(alloc, 2, &NONE)?]?;
    Ok(Change {
        degree: -1,
        column: 1,
        row: 2,
        columns,
        rows,
    })
}

fn without_two(alloc: Global) -> Result<Complex<F5>, NoMemory> {
    let mut complex = over_five(alloc)?;
    let change = change_of_two(alloc)?;
    complex.exchange(change);
    Ok(complex)
}

fn middle_labels(alloc: Global) -> Result<Vec<Vec<Generator>>, NoMemory>
    ensures { IfOk result (λ made. lists_in made.items ≡ middle_names) }
{
    let first = labels(alloc, 0, 1)?;
    let second = labels(alloc, 1, 2)?;
    let third = labels(alloc, 3, 2)?;
    let fourth = labels(alloc, 7, 1)?;
    Ok(vec![in alloc; first, second, third, fourth]?)
}

fn middle_lines(alloc: Global) -> Result<Vec<Columns>, NoMemory>
    ensures { IfOk result (λ made. lines_in made.items ≡ middle_columns) }
{
    let first = lines(alloc, &[[(0, 1), (1, 1)]])?;
    let second = lines(alloc, &[[(0, 2), (1, 2)], [(0, 3), (1, 3)]])?;
    let third = lines(alloc, &[[(0, 1)], [(0, 4)]])?;
    let fourth = lines(alloc, &[NONE])?;
    Ok(vec![in alloc; first, second, third, fourth]?)
}

fn middle(alloc: Global) -> Result<Complex<F5>, NoMemory>
    ensures { IfOk result (λ made. made ≡ middle_complex) }
{
    let names = middle_labels(alloc)?;
    let columns = middle_lines(alloc)?;
    ColumnComplex::new(-1, names, columns).build(alloc)
}

fn change_of_middle(alloc: Global) -> Result<Change, NoMemory>
    ensures { IfOk result (λ made. made ≡ middle_change) }
{
    let columns = vec![in alloc;
        placed_line(alloc, 0, &NONE)?,
        placed_line(alloc, 1, &NONE)?,
    ]?;
    let rows = vec![in alloc;
        placed_line(alloc, 0, &NONE)?,
        placed_line(alloc, 1, &NONE)?,
    ]?;
    Ok(Change {
        degree: 0,
        column: 0,
        row: 0,
        columns,
        rows,
    })
}

fn without_middle(alloc: Global) -> Result<Complex<F5>, NoMemory> {
    let mut complex = middle(alloc)?;
    let change = change_of_middle(alloc)?;
    complex.exchange(change);
    Ok(complex)
}

/// Its entry 2 at column 0 of degree 0 stands alone in the column.
fn without_column(alloc: Global) -> Result<Complex<F3>, NoMemory> {
    let mut complex = over_three(alloc)?;
    complex.drop_pair(0, 0, 0);
    Ok(complex)
}

/// Its entry 1 at row 0 of degree -1 stands alone in the row.
fn without_row(alloc: Global) -> Result<Complex<F5>, NoMemory> {
    let mut complex = middle(alloc)?;
    complex.drop_pair(-1, 0, 0);
    Ok(complex)
}

/// Entries, each by its place and its value.
type Pairs = &'static [(u32, u8)];

/// What a complex has: columns and rows, each by its degree and its place, and which places of each
/// degree are alive.
struct Left {
    columns: &'static [(i16, u32, Pairs)],
    rows: &'static [(i16, u32, Pairs)],
    alive: &'static [(i16, &'static [bool])],
}

/// The first worked complex over five elements, without the 2 at column 1 and row 2 of degree -1.
const WITHOUT_TWO: Left = Left {
    columns: &[
        (-1, 0, &[(0, 1), (1, 1)]),
        (-1, 1, &[]),
        (-1, 2, &[(0, 1), (1, 1)]),
        (-1, 3, &[(0, 1), (1, 1)]),
        (-1, 4, &[]),
        (-1, 5, &[(0, 1), (1, 1)]),
        (0, 0, &[(0, 2)]),
        (0, 1, &[(0, 3)]),
        (0, 2, &[]),
    ],
    rows: &[
        (-1, 0, &[(0, 1), (2, 1), (3, 1), (5, 1)]),
        (-1, 1, &[(0, 1), (2, 1), (3, 1), (5, 1)]),
        (-1, 2, &[]),
        (0, 0, &[(0, 2), (1, 3)]),
    ],
    alive: &[
        (-2, &[]),
        (-1, &[true, false, true, true, true, true]),
        (0, &[true, true, false]),
        (1, &[true]),
        (2, &[]),
        (3, &[]),
    ],
};

/// The complex with a middle, without the 2 at column 0 and row 0 of degree 0.
const WITHOUT_MIDDLE: Left = Left {
    columns: &[
        (-1, 0, &[(1, 1)]),
        (0, 0, &[]),
        (0, 1, &[]),
        (1, 0, &[]),
        (1, 1, &[(0, 4)]),
        (2, 0, &[]),
    ],
    rows: &[
        (-1, 0, &[]),
        (-1, 1, &[(0, 1)]),
        (0, 0, &[]),
        (0, 1, &[]),
        (1, 0, &[(1, 4)]),
    ],
    alive: &[
        (-1, &[true]),
        (0, &[false, true]),
        (1, &[false, true]),
        (2, &[true]),
    ],
};

/// The worked complex over three elements, without the 2 at column 0 of degree 0.
const WITHOUT_COLUMN: Left = Left {
    columns: &[
        (-1, 0, &[(1, 1)]),
        (-1, 1, &[(1, 1), (2, 2)]),
        (-1, 2, &[(1, 1)]),
        (-1, 3, &[(1, 1)]),
        (-1, 4, &[(1, 1), (2, 2)]),
        (-1, 5, &[(1, 1)]),
        (0, 0, &[]),
        (0, 1, &[]),
        (0, 2, &[]),
    ],
    rows: &[(-1, 0, &[]), (-1, 2, &[(1, 2), (4, 2)]), (0, 0, &[])],
    alive: &[
        (-1, &[true, true, true, true, true, true]),
        (0, &[false, true, true]),
        (1, &[false]),
    ],
};

/// The complex with a middle, without the 1 at row 0 of degree -1.
const WITHOUT_ROW: Left = Left {
    columns: &[
        (-1, 0, &[]),
        (0, 0, &[]),
        (0, 1, &[(0, 3), (1, 3)]),
        (1, 0, &[(0, 1)]),
        (1, 1, &[(0, 4)]),
    ],
    rows: &[
        (-1, 0, &[]),
        (-1, 1, &[]),
        (0, 0, &[(1, 3)]),
        (0, 1, &[(1, 3)]),
        (1, 0, &[(0, 1), (1, 4)]),
    ],
    alive: &[(-1, &[false]), (0, &[false, true]), (1, &[true, true])],
};

fn are(entries: Option<&[Entry]>, wanted: Pairs) -> bool {
    match entries {
        Some(entries) => {
            entries.len() == wanted.len()
                && entries
                    .iter()
                    .zip(wanted)
                    .all(|(entry, pair)| (entry.place(), entry.value()) == *pair)
        }
        None => false,
    }
}

fn check<F: PrimeField>(rt: &impl Abort, complex: &Complex<F>, left: &Left) {
    for (i, place, wanted) in left.columns {
        assert!(rt; are(column_at(complex, *i, *place), *wanted));
    }
    for (i, place, wanted) in left.rows {
        assert!(rt; are(row_at(complex, *i, *place), *wanted));
    }
    for (i, alive) in left.alive {
        for place in 0..7u32 {
            let wanted = alive.get(place as usize).copied().unwrap_or(false);
            assert!(rt; complex.is_alive(*i, place) == wanted);
        }
    }
}

#[test]
fn a_cancellation_takes_the_inverse(rt: HostRuntime) -> Result<(), Fail> {
    check(&rt, &without_two(rt.alloc())?, &WITHOUT_TWO);
    Ok(())
}

#[test]
fn a_cancellation_clears_both_neighbours(rt: HostRuntime) -> Result<(), Fail> {
    check(&rt, &without_middle(rt.alloc())?, &WITHOUT_MIDDLE);
    Ok(())
}

#[test]
fn pairs_alone_are_dropped(rt: HostRuntime) -> Result<(), Fail> {
    check(&rt, &without_column(rt.alloc())?, &WITHOUT_COLUMN);
    check(&rt, &without_row(rt.alloc())?, &WITHOUT_ROW);
    Ok(())
}
