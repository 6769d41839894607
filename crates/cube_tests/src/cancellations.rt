//! What no clause says: that each call succeeds where there is memory, and which pivots are found.
//! The worked complexes stand in `specs/Squares.antt`; what they leave was worked out by hand.

ghost use Rattle.std.specs.Prelude.{◌≡◌, [], ◌∷◌, IfOk};
ghost use Rattle.kh_types.specs.Generators.{generator_of};
ghost use Rattle.sparse_block.specs.Complexes.{HaveEntries, SquaresToZero};
ghost use Rattle.sparse_block.specs.Inside.{lines_in, lists_in};
ghost use Rattle.cube_tests.specs.Squares.{square, square_columns, square_names};

use crate::made_complexes::{Columns, NONE, lines};
use cancel_step::{Foreign, apply, cancel_in_place, copy, find, finish, look, patch};
use kh_types::NoMemory;
use prime_field::{F5, PrimeField};
use sparse_block::{ColumnComplex, Complex, Entry, Generator, Pivot};
use std::alloc::Global;
use std::process::Abort;
use std::test::Fail;

fn labels(alloc: Global, state: u32) -> Result<Vec<Generator>, NoMemory>
    ensures { IfOk result (λ made. made.items
        ≡ generator_of state 0 ∷ generator_of state 1 ∷ generator_of state 2 ∷ []) }
{
    let [first, second, third] = [0, 1, 2].map(|label| Generator { state, label });
    Ok(vec![in alloc; first, second, third]?)
}

fn names(alloc: Global) -> Result<Vec<Vec<Generator>>, NoMemory>
    ensures { IfOk result (λ made. lists_in made.items ≡ square_names) }
{
    let first = labels(alloc, 0)?;
    let second = labels(alloc, 1)?;
    Ok(vec![in alloc; first, second]?)
}

fn columns(alloc: Global, x: u8, y: u8) -> Result<Vec<Columns>, NoMemory>
    ensures { IfOk result (λ made. lines_in made.items ≡ square_columns x y) }
{
    let left = [(0, 1), (1, 2)];
    let middle = [(1, x), (2, 1)];
    let right = [(0, y), (2, 4)];
    let first = lines(alloc, &[left, middle, right])?;
    let second = lines(alloc, &[NONE, NONE, NONE])?;
    Ok(vec![in alloc; first, second]?)
}

fn built(alloc: Global, x: u8, y: u8) -> Result<Complex<F5>, NoMemory>
    requires entries { HaveEntries 5 square_names (square_columns x y) }
    requires squares { SquaresToZero 5 (square x y).complex }
{
    let names = names(alloc)?;
    let columns = columns(alloc, x, y)?;
    ColumnComplex::new(-2, names, columns).build(alloc)
}

/// The worked complexes: x is 1, or 2 where `other_x`, and y is 3, or 4 where `other_y`.
fn square(alloc: Global, other_x: bool, other_y: bool) -> Result<Complex<F5>, NoMemory> {
    match (other_x, other_y) {
        (false, false) => built(alloc, 1, 3),
        (true, false) => built(alloc, 2, 3),
        (false, true) => built(alloc, 1, 4),
        (true, true) => built(alloc, 2, 4),
    }
}

/// A pivot at degree -2.
fn pivot(column: u32, row: u32) -> Pivot {
    Pivot {
        degree: -2,
        column,
        row,
    }
}

/// The nine entries at degree -2, row by row.
fn numbers(complex: &Complex<F5>) -> [[u8; 3]; 3] {
    let mut found = [[9; 3]; 3];
    for row in 0..3u32 {
        for column in 0..3u32 {
            if complex.low() <= -2
                && -2 <= complex.high()
                && row < complex.places(-1)
                && column < complex.places(-2)
            {
                found[row as usize][column as usize] = complex.entry(-2, row, column).value();
            }
        }
    }
    found
}

/// The entries of a row at degree -2.
fn row_at(complex: &Complex<F5>, row: u32) -> &[Entry] {
    if complex.low() <= -2 && -1 <= complex.high() && row < complex.places(-1) {
        return complex.row(-2, row);
    }
    &[]
}

/// The columns at degree -2 have the entries of the rows.
fn check_lines(rt: &impl Abort, complex: &Complex<F5>, wanted: [[u8; 3]; 3]) {
    assert!(rt; numbers(complex) == wanted);
    for row in 0..3u32 {
        let entries = row_at(complex, row);
        for column in 0..3u32 {
            let entry = entries.iter().find(|entry| entry.place() == column);
            let value = entry.map_or(0, |entry| entry.value());
            assert!(rt; value == wanted[row as usize][column as usize]);
        }
    }
}

/// Without the 2 at column 0, whose inverse is 3; with 2 in its place column 1 would begin with 3.
const WITHOUT_TWO: [[u8; 3]; 3] = [[0, 2, 3], [0, 0, 0], [0, 1, 4]];

#[test]
fn a_patch_takes_the_inverse(rt: HostRuntime) -> Result<(), Fail> {
    let alloc = rt.alloc();
    let mut complex = square(alloc, false, false)?;
    check_lines(&rt, &complex, [[1, 0, 3], [2, 1, 0], [0, 1, 4]]);
    let found = look(&complex, 0);
    assert!(rt; found == Some(pivot(0, 1)));
    if let Some(found) = found {
        let patch = patch(alloc, copy(alloc, &complex, found)?)?;
        assert!(rt; apply(&mut complex, patch).is_ok());
    }
    check_lines(&rt, &complex, WITHOUT_TWO);
    assert!(rt; complex.alive(-2) == 2 && complex.alive(-1) == 2);
    Ok(())
}

#[test]
fn a_cancellation_in_place_is_the_same(rt: HostRuntime) -> Result<(), Fail> {
    let alloc = rt.alloc();
    let mut complex = square(alloc, false, false)?;
    if let Some(found) = look(&complex, 0) {
        cancel_in_place(alloc, &mut complex, found)?;
    }
    check_lines(&rt, &complex, WITHOUT_TWO);
    Ok(())
}

/// Each row is the complex, and how many places `finish` leaves alive at each degree. The
/// determinant is 4x + 2y.
#[test]
fn all_pivots_are_cancelled(rt: HostRuntime) -> Result<(), Fail> {
    let alloc = rt.alloc();
    for (other_x, other_y, alive) in [
        (false, false, 1),
        (true, false, 0),
        (false, true, 0),
        (true, true, 0),
    ] {
        let mut complex = square(alloc, other_x, other_y)?;
        finish(alloc, &mut complex)?;
        assert!(rt; complex.is_zero() && look(&complex, 0).is_none());
        assert!(rt; complex.alive(-2) == alive && complex.alive(-1) == alive);
        check_lines(&rt, &complex, [[0; 3]; 3]);
    }
    Ok(())
}

/// Each row is a complex, whose pivots are cancelled by patches and in place. The third pivot,
/// where there is one, stands alone in its row and its column.
#[test]
fn patches_do_what_is_done_in_place(rt: HostRuntime) -> Result<(), Fail> {
    let alloc = rt.alloc();
    for (other_x, other_y) in [(false, false), (true, false), (false, true), (true, true)] {
        let mut complex = square(alloc, other_x, other_y)?;
        let mut other = square(alloc, other_x, other_y)?;
        for _ in 0..3 {
            if let Some(found) = look(&complex, 0) {
                let patch = patch(alloc, copy(alloc, &complex, found)?)?;
                assert!(rt; apply(&mut complex, patch).is_ok());
            }
            if let Some(found) = look(&other, 0) {
                cancel_in_place(alloc, &mut other, found)?;
            }
            assert!(rt; numbers(&complex) == numbers(&other));
        }
        assert!(rt; complex.is_zero());
    }
    Ok(())
}

/// Each row is a complex to which a patch of the first one is applied, and the least column that
/// differs: where x differs the copied column 1, else the copied row 0 at column 2.
#[test]
fn foreign_patches_carry_the_least_column(rt: HostRuntime) -> Result<(), Fail> {
    let alloc = rt.alloc();
    for (other_x, other_y, column) in [(true, false, 1), (false, true, 2), (true, true, 1)] {
        let first = square(alloc, false, false)?;
        let mut other = square(alloc, other_x, other_y)?;
        let before = numbers(&other);
        if let Some(found) = look(&first, 0) {
            let patch = patch(alloc, copy(alloc, &first, found)?)?;
            let foreign = Foreign { degree: -2, column };
            assert!(rt; apply(&mut other, patch) == Err(foreign));
        }
        assert!(rt; numbers(&other) == before);
    }
    Ok(())
}

/// Each row is a hint, and the pivot that is found: three empty columns of degree -1 come first.
/// The last column of degree -2 is emptied before, so that a search from there goes round.
#[test]
fn searches_go_round(rt: HostRuntime) -> Result<(), Fail> {
    let alloc = rt.alloc();
    let mut complex = square(alloc, false, false)?;
    if let Some(last) = find(&complex, 5) {
        assert!(rt; last.pivot == pivot(2, 2) && last.hint == 5);
        cancel_in_place(alloc, &mut complex, last.pivot)?;
    }
    for (hint, found) in [
        (0, pivot(0, 1)),
        (3, pivot(0, 1)),
        (4, pivot(1, 1)),
        (5, pivot(0, 1)),
        (6, pivot(0, 1)),
        (99, pivot(0, 1)),
    ] {
        assert!(rt; look(&complex, hint) == Some(found));
    }
    Ok(())
}
