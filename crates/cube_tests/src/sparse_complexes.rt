//! What no clause says: that `build` succeeds where there is memory, and what a worked complex
//! reads as. Its matrices stand in `Worked` of sparse_block, and were multiplied by hand.

ghost use Rattle.std.specs.Prelude.{◌≡◌, slice_index, IfOk};
ghost use Rattle.sparse_block.specs.Complexes.{HaveEntries, SquaresToZero};
ghost use Rattle.sparse_block.specs.Inside.{lines_in, lists_in};
ghost use Rattle.sparse_block.specs.Worked.{worked_columns, worked_complex, worked_names};

use crate::made_complexes::{Columns, NONE, labels, lines, name};
use kh_types::NoMemory;
use prime_field::{F3, F5, PrimeField};
use sparse_block::{ColumnComplex, Complex, Entry, Generator, build};
use std::alloc::Global;
use std::test::Fail;

mod cancelling;

fn names(alloc: Global) -> Result<Vec<Vec<Generator>>, NoMemory>
    ensures { IfOk result (λ made. lists_in made.items ≡ worked_names) }
{
    let first = labels(alloc, 0, 6)?;
    let second = labels(alloc, 1, 3)?;
    let third = labels(alloc, 3, 1)?;
    let fourth = labels(alloc, 7, 0)?;
    Ok(vec![in alloc; first, second, third, fourth]?)
}

fn columns(alloc: Global, last: [u8; 3]) -> Result<Vec<Columns>, NoMemory>
    ensures { IfOk result (λ made. lines_in made.items ≡ worked_columns
        (slice_index last 0) (slice_index last 1) (slice_index last 2)) }
{
    let [left, right] = [[(0, 1), (1, 1)], [(1, 1), (2, 2)]];
    let first = lines(alloc, &[left, right, left, left, right, left])?;
    let [x, y, z] = last;
    let second = lines(alloc, &[[(0, x)], [(0, y)], [(0, z)]])?;
    let third = lines(alloc, &[NONE])?;
    let fourth = Vec::new(alloc);
    Ok(vec![in alloc; first, second, third, fourth]?)
}

fn worked<F: PrimeField>(alloc: Global, last: [u8; 3]) -> Result<Complex<F>, NoMemory>
    requires entries { HaveEntries F.P worked_names
        (worked_columns (slice_index last 0) (slice_index last 1) (slice_index last 2)) }
    requires squares { SquaresToZero F.P
        (worked_complex (slice_index last 0) (slice_index last 1) (slice_index last 2)).complex }
    ensures { IfOk result (λ made.
        made ≡ worked_complex (slice_index last 0) (slice_index last 1) (slice_index last 2)) }
{
    let names = names(alloc)?;
    let columns = columns(alloc, last)?;
    ColumnComplex::new(-1, names, columns).build(alloc)
}

/// The same complex, made by `build` alone.
fn worked_at_once<F: PrimeField>(alloc: Global, last: [u8; 3]) -> Result<Complex<F>, NoMemory>
    requires entries { HaveEntries F.P worked_names
        (worked_columns (slice_index last 0) (slice_index last 1) (slice_index last 2)) }
    requires squares { SquaresToZero F.P
        (worked_complex (slice_index last 0) (slice_index last 1) (slice_index last 2)).complex }
    ensures { IfOk result (λ made.
        made ≡ worked_complex (slice_index last 0) (slice_index last 1) (slice_index last 2)) }
{
    let names = names(alloc)?;
    let columns = columns(alloc, last)?;
    build(alloc, -1, names, columns)
}

fn over_three(alloc: Global) -> Result<Complex<F3>, NoMemory>
    ensures { IfOk result (λ made. made ≡ worked_complex 2 1 1) }
{
    worked(alloc, [2, 1, 1])
}

fn over_five(alloc: Global) -> Result<Complex<F5>, NoMemory>
    ensures { IfOk result (λ made. made ≡ worked_complex 2 3 1) }
{
    worked(alloc, [2, 3, 1])
}

fn over_five_at_once(alloc: Global) -> Result<Complex<F5>, NoMemory>
    ensures { IfOk result (λ made. made ≡ worked_complex 2 3 1) }
{
    worked_at_once(alloc, [2, 3, 1])
}

/// The complex with one place, at degree 7.
fn point(alloc: Global) -> Result<Complex<F3>, NoMemory> {
    let names = vec![in alloc; vec![in alloc; name(0, 0)]?]?;
    let columns = vec![in alloc; lines(alloc, &[NONE])?]?;
    ColumnComplex::new(7, names, columns).build(alloc)
}

fn column_at<F: PrimeField>(complex: &Complex<F>, i: i16, place: u32) -> Option<&[Entry]> {
    if complex.low() <= i && i <= complex.high() && place < complex.places(i) {
        return Some(complex.column(i, place));
    }
    None
}

fn row_at<F: PrimeField>(complex: &Complex<F>, i: i16, place: u32) -> Option<&[Entry]> {
    if complex.low() <= i && i < complex.high() && place < complex.places(i + 1) {
        return Some(complex.row(i, place));
    }
    None
}

fn name_at<F: PrimeField>(complex: &Complex<F>, i: i16, place: u32) -> Option<Generator> {
    if complex.low() <= i && i <= complex.high() && place < complex.places(i) {
        return Some(complex.name(i, place));
    }
    None
}

/// The entries of a row, one by one, up to six.
fn numbers<F: PrimeField>(complex: &Complex<F>, i: i16, row: u32) -> [u8; 6] {
    let mut found = [9; 6];
    for column in 0..6u32 {
        if complex.low() <= i
            && i < complex.high()
            && row < complex.places(i + 1)
            && column < complex.places(i)
        {
            found[column as usize] = complex.entry(i, row, column).value();
        }
    }
    found
}

/// Each row is a degree, a place, and the entries of the column there.
#[test]
fn columns_have_their_entries(rt: HostRuntime) -> Result<(), Fail> {
    let complex = over_three(rt.alloc())?;
    for (i, place, entries) in [
        (-1, 0, Some([Entry::new(0, 1), Entry::new(1, 1)].as_slice())),
        (-1, 4, Some([Entry::new(1, 1), Entry::new(2, 2)].as_slice())),
        (-1, 6, None),
        (0, 0, Some([Entry::new(0, 2)].as_slice())),
        (1, 0, Some(&[])),
        (2, 0, None),
        (3, 0, None),
        (-2, 0, None),
    ] {
        assert!(rt; column_at(&complex, i, place) == entries);
    }
    Ok(())
}

/// Each row is a degree, a place of the next, and the entries of the row there.
#[test]
fn rows_have_the_same_entries(rt: HostRuntime) -> Result<(), Fail> {
    let complex = over_five(rt.alloc())?;
    let whole = [
        Entry::new(0, 1),
        Entry::new(1, 1),
        Entry::new(2, 1),
        Entry::new(3, 1),
        Entry::new(4, 1),
        Entry::new(5, 1),
    ];
    for (i, place, entries) in [
        (-1, 1, Some(whole.as_slice())),
        (-1, 2, Some([Entry::new(1, 2), Entry::new(4, 2)].as_slice())),
        (-1, 3, None),
        (
            0,
            0,
            Some([Entry::new(0, 2), Entry::new(1, 3), Entry::new(2, 1)].as_slice()),
        ),
        (1, 0, None),
        (2, 0, None),
    ] {
        assert!(rt; row_at(&complex, i, place) == entries);
    }
    Ok(())
}

/// Each row is a degree, a place of the next, and the row there; 9 stands where there is no column.
#[test]
fn entries_are_those_of_the_matrices(rt: HostRuntime) -> Result<(), Fail> {
    let complex = over_five(rt.alloc())?;
    let at_once = over_five_at_once(rt.alloc())?;
    for (i, row, entries) in [
        (-1, 0, [1, 0, 1, 1, 0, 1]),
        (-1, 1, [1, 1, 1, 1, 1, 1]),
        (-1, 2, [0, 2, 0, 0, 2, 0]),
        (0, 0, [2, 3, 1, 9, 9, 9]),
        (1, 0, [9, 9, 9, 9, 9, 9]),
    ] {
        assert!(rt; numbers(&complex, i, row) == entries);
        assert!(rt; numbers(&at_once, i, row) == entries);
    }
    Ok(())
}

/// `build` makes of names and columns what comes of them by way of `ColumnComplex`.
#[test]
fn both_ways_make_one_complex(rt: HostRuntime) -> Result<(), Fail> {
    let complex = over_five(rt.alloc())?;
    let at_once = over_five_at_once(rt.alloc())?;
    assert!(rt; at_once.low() == complex.low() && at_once.high() == complex.high());
    for i in -3..=4i16 {
        for place in 0..7u32 {
            assert!(rt; at_once.is_alive(i, place) == complex.is_alive(i, place));
            assert!(rt; name_at(&at_once, i, place) == name_at(&complex, i, place));
            assert!(rt; column_at(&at_once, i, place) == column_at(&complex, i, place));
            assert!(rt; row_at(&at_once, i, place) == row_at(&complex, i, place));
        }
    }
    Ok(())
}

/// Each row is a degree, how many places it has, and the name of the last.
#[test]
fn degrees_have_their_places(rt: HostRuntime) -> Result<(), Fail> {
    let complex = over_three(rt.alloc())?;
    assert!(rt; complex.low() == -1 && complex.high() == 2 && !complex.is_zero());
    for (i, places, last) in [
        (-32768, 0, None),
        (-2, 0, None),
        (-1, 6, Some(name(0, 5))),
        (0, 3, Some(name(1, 2))),
        (1, 1, Some(name(3, 0))),
        (2, 0, None),
        (32767, 0, None),
    ] {
        assert!(rt; complex.places(i) == places && complex.alive(i) == places);
        assert!(rt; name_at(&complex, i, places.saturating_sub(1)) == last);
    }
    Ok(())
}

#[test]
fn a_point_is_zero(rt: HostRuntime) -> Result<(), Fail> {
    let complex = point(rt.alloc())?;
    assert!(rt; complex.low() == 7 && complex.high() == 7 && complex.is_zero());
    Ok(())
}
