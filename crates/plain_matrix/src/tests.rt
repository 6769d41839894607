//! What no clause says: that the calls succeed where there is memory, and what known matrices come
//! to. The ranks were found by hand, from minors.

use crate::{Dense, rank, transposed};
use kh_types::NoMemory;
use prime_field::laws::element_laws;
use prime_field::{F2, F3, F5, F7, PrimeField};
use std::alloc::Global;
use std::test::Fail;

/// Puts a number at a place, by its remainder, where the matrix has that place.
fn put<F: PrimeField>(matrix: &mut Dense<F>, row: u32, column: u32, value: u8) {
    element_laws::<F>();
    if row < matrix.rows() && column < matrix.columns() {
        matrix.set(row, column, F::of(value % F::P));
    }
}

fn matrix_of<F: PrimeField>(
    alloc: Global,
    size: (u32, u32),
    rows: [[u8; 3]; 3],
) -> Result<Dense<F>, NoMemory> {
    let mut made = Dense::zero(alloc, size.0, size.1)?;
    for row in 0..3u32 {
        for column in 0..3u32 {
            let value = rows[row as usize][column as usize];
            put(&mut made, row, column, value);
        }
    }
    Ok(made)
}

/// The rank of a matrix and of its transpose.
fn ranks_of<F: PrimeField>(
    alloc: Global,
    size: (u32, u32),
    rows: [[u8; 3]; 3],
) -> Result<(u32, u32), NoMemory> {
    let matrix: Dense<F> = matrix_of(alloc, size, rows)?;
    let turned = transposed(alloc, &matrix)?;
    Ok((rank(alloc, &matrix)?, rank(alloc, &turned)?))
}

/// Each row is a size, a matrix, and its rank over two, three, five and seven elements.
#[test]
fn known_matrices_have_their_ranks(rt: HostRuntime) -> Result<(), Fail> {
    let alloc = rt.alloc();
    for (size, rows, ranks) in [
        ((2, 2), [[1, 2, 0], [2, 4, 0], [0, 0, 0]], [1, 1, 1, 1]),
        ((2, 2), [[2, 1, 0], [1, 3, 0], [0, 0, 0]], [2, 2, 1, 2]),
        ((3, 3), [[1, 1, 0], [0, 1, 1], [1, 0, 1]], [2, 3, 3, 3]),
        ((3, 3), [[1, 2, 3], [4, 5, 6], [7, 8, 9]], [2, 1, 2, 2]),
        ((2, 3), [[0, 0, 7], [0, 7, 0], [0, 0, 0]], [2, 2, 2, 0]),
        ((0, 3), [[0, 0, 0], [0, 0, 0], [0, 0, 0]], [0, 0, 0, 0]),
    ] {
        let found = [
            ranks_of::<F2>(alloc, size, rows)?,
            ranks_of::<F3>(alloc, size, rows)?,
            ranks_of::<F5>(alloc, size, rows)?,
            ranks_of::<F7>(alloc, size, rows)?,
        ];
        for (found, rank) in found.iter().zip(&ranks) {
            assert_eq!(rt; *found, (*rank, *rank), "{rows:?}");
        }
    }
    Ok(())
}

#[test]
fn numbers_are_put_by_their_remainders(rt: HostRuntime) -> Result<(), Fail> {
    let matrix: Dense<F2> = matrix_of(rt.alloc(), (2, 2), [[1, 2, 0], [2, 4, 0], [0, 0, 0]])?;
    for (row, column, value) in [(0, 0, 1), (0, 1, 0), (1, 0, 0), (1, 1, 0)] {
        if row < matrix.rows() && column < matrix.columns() {
            assert_eq!(rt; matrix.entry(row, column).value(), value);
        }
    }
    Ok(())
}
