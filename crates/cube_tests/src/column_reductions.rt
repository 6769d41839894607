//! What no clause says: that the calls succeed where there is memory, and which pivots worked
//! complexes have. They were reduced by hand, and stand in `WorkedColumns`.

ghost use Rattle.std.specs.Prelude.{◌≡◌, pos, slice_index, IfOk};
ghost use Rattle.sparse_block.specs.Complexes.{MakeComplex};
ghost use Rattle.sparse_block.specs.Inside.{lines_in, lists_in};
ghost use Rattle.column_reduction.specs.WorkedColumns.{four_names, square_lines};

use crate::made_complexes::{Columns, NONE, labels, lines};
use cancel_step::{cancel_in_place, find};
use column_reduction::{Reduced, reduce};
use kh_types::NoMemory;
use prime_field::{F2, F3, PrimeField};
use sparse_block::{ColumnComplex, Generator, Pivot};
use std::alloc::Global;
use std::test::Fail;

/// More pivots than a worked complex has.
const MOST_PIVOTS: u32 = 10;

fn names(alloc: Global, sizes: [u64; 4]) -> Result<Vec<Vec<Generator>>, NoMemory>
    ensures { IfOk result (λ made. lists_in made.items ≡ four_names (slice_index sizes 0)
        (slice_index sizes 1) (slice_index sizes 2) (slice_index sizes 3)) }
{
    let [a, b, c, d] = sizes;
    let first = labels(alloc, 0, a)?;
    let second = labels(alloc, 1, b)?;
    let third = labels(alloc, 2, c)?;
    let fourth = labels(alloc, 3, d)?;
    Ok(vec![in alloc; first, second, third, fourth]?)
}

fn square<F: PrimeField>(alloc: Global, last: u8) -> Result<ColumnComplex<F>, NoMemory>
    requires { MakeComplex F.P (pos 0) (four_names 1 2 1 0) (square_lines last) }
{
    let names = names(alloc, [1, 2, 1, 0])?;
    let first = lines(alloc, &[[(0, 1), (1, 1)]])?;
    let second = lines(alloc, &[[(0, 1)], [(0, last)]])?;
    let third = lines(alloc, &[NONE])?;
    let fourth = Vec::new(alloc);
    let columns = vec![in alloc; first, second, third, fourth]?;
    Ok(by_columns(names, columns))
}

fn square_over_two(alloc: Global) -> Result<ColumnComplex<F2>, NoMemory> {
    square::<F2>(alloc, 1)
}

fn square_over_three(alloc: Global) -> Result<ColumnComplex<F3>, NoMemory> {
    square::<F3>(alloc, 2)
}

fn three_rows(alloc: Global) -> Result<ColumnComplex<F3>, NoMemory> {
    let names = names(alloc, [4, 3, 0, 0])?;
    let [one, other] = [[(0, 1), (1, 1)], [(0, 2), (2, 1)]];
    let first = lines(alloc, &[one, other, [(1, 2), (2, 1)], [(1, 1), (2, 1)]])?;
    let second = lines(alloc, &[NONE, NONE, NONE])?;
    let third = Vec::new(alloc);
    let fourth = Vec::new(alloc);
    let columns = vec![in alloc; first, second, third, fourth]?;
    Ok(by_columns(names, columns))
}

fn void(alloc: Global) -> Result<ColumnComplex<F2>, NoMemory> {
    let names = names(alloc, [0, 0, 0, 0])?;
    let first = Vec::new(alloc);
    let second = Vec::new(alloc);
    let third = Vec::new(alloc);
    let fourth = Vec::new(alloc);
    let columns = vec![in alloc; first, second, third, fourth]?;
    Ok(by_columns(names, columns))
}

fn by_columns<F: PrimeField>(names: Vec<Vec<Generator>>, columns: Vec<Columns>) -> ColumnComplex<F>
    requires { MakeComplex F.P (pos 0) (lists_in names.items) (lines_in columns.items) }
{
    ColumnComplex::new(0, names, columns)
}

fn pivot(degree: i16, column: u32, row: u32) -> Pivot {
    Pivot {
        degree,
        column,
        row,
    }
}

/// Whether so many places are alive, by degree from 0 on.
fn has_alive<F: PrimeField>(made: &Reduced<F>, expected: [u32; 4]) -> bool {
    let complex = &made.complex;
    [
        complex.alive(0),
        complex.alive(1),
        complex.alive(2),
        complex.alive(3),
    ] == expected
}

/// The pivots that searches find one after another, each from where the last one ended.
fn searched<F: PrimeField>(
    alloc: Global,
    columns: ColumnComplex<F>,
) -> Result<Vec<Pivot>, NoMemory> {
    let mut complex = columns.build(alloc)?;
    let mut pivots = Vec::new(alloc);
    let mut hint = 0;
    for _ in 0..MOST_PIVOTS {
        let Some(found) = find(&complex, hint) else {
            break;
        };
        cancel_in_place(alloc, &mut complex, found.pivot)?;
        pivots.push(found.pivot)?;
        hint = found.hint;
    }
    Ok(pivots)
}

#[test]
fn a_square_over_two_dies(rt: HostRuntime) -> Result<(), Fail> {
    let alloc = rt.alloc();
    let made = reduce(alloc, square_over_two(alloc)?)?;
    assert!(rt; made.pivots.as_slice() == [pivot(1, 0, 0), pivot(0, 0, 1)].as_slice());
    assert!(rt; has_alive(&made, [0; 4]));
    Ok(())
}

#[test]
fn a_square_over_three_dies(rt: HostRuntime) -> Result<(), Fail> {
    let alloc = rt.alloc();
    let made = reduce(alloc, square_over_three(alloc)?)?;
    assert!(rt; made.pivots.as_slice() == [pivot(1, 0, 0), pivot(0, 0, 1)].as_slice());
    assert!(rt; has_alive(&made, [0; 4]));
    Ok(())
}

#[test]
fn three_rows_leave_a_place(rt: HostRuntime) -> Result<(), Fail> {
    let alloc = rt.alloc();
    let made = reduce(alloc, three_rows(alloc)?)?;
    assert!(rt;
        made.pivots.as_slice() == [pivot(0, 0, 1), pivot(0, 1, 2), pivot(0, 2, 0)].as_slice()
    );
    assert!(rt; has_alive(&made, [1, 0, 0, 0]) && made.complex.is_alive(0, 3));
    Ok(())
}

#[test]
fn nothing_leaves_nothing(rt: HostRuntime) -> Result<(), Fail> {
    let alloc = rt.alloc();
    let made = reduce(alloc, void(alloc)?)?;
    assert!(rt; made.pivots.is_empty());
    assert!(rt; has_alive(&made, [0; 4]));
    Ok(())
}

#[test]
fn pivots_are_those_of_searches(rt: HostRuntime) -> Result<(), Fail> {
    let alloc = rt.alloc();
    let made = reduce(alloc, square_over_three(alloc)?)?;
    assert!(rt; made.pivots.as_slice() == searched(alloc, square_over_three(alloc)?)?.as_slice());
    let made = reduce(alloc, three_rows(alloc)?)?;
    assert!(rt; made.pivots.as_slice() == searched(alloc, three_rows(alloc)?)?.as_slice());
    Ok(())
}
