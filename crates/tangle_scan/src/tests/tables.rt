//! What no clause says: that there is a table where there is memory. That of the trefoil is in
//! Bar-Natan 2002; curls that lie apart and loops are as many circles. The tables of diagrams in
//! several pieces are products of those of their pieces, multiplied apart from this program.

use crate::scanning::scan_table;
use arrayvec::ArrayVec;
use kh_types::{Crossing, Diagram, RawCode};
use prime_field::{F2, F3, PrimeField};
use std::process::Abort;
use std::test::Fail;

const TREFOIL: [[u8; 4]; 3] = [[1, 4, 2, 5], [3, 6, 4, 1], [5, 2, 6, 3]];

const CURLS: [[u8; 4]; 2] = [[1, 1, 2, 2], [3, 3, 4, 4]];

const TREFOIL_AND_HOPF: [[u8; 4]; 5] = [
    [1, 4, 2, 5],
    [10, 7, 9, 8],
    [3, 6, 4, 1],
    [8, 9, 7, 10],
    [5, 2, 6, 3],
];

/// Twenty curls that lie apart.
fn twenty_curls() -> [[u8; 4]; 20] {
    let mut curls = [[0u8; 4]; 20];
    for place in 0..20u8 {
        let arc = 2 * place + 1;
        curls[usize::from(place)] = [arc, arc, arc + 1, arc + 1];
    }
    curls
}

/// The table of a diagram over a field has these rows: j, i and the dimension.
fn has_rows<F: PrimeField, R: Abort + AllocGlobal>(
    rt: &R,
    crossings: &[[u8; 4]],
    loops: u8,
    rows: &[(i16, i16, u128)],
) -> Result<(), Fail> {
    let mut list = ArrayVec::new();
    for slots in crossings {
        assert!(rt; list.len() < 20);
        list.push(Crossing(*slots));
    }
    let raw = RawCode {
        crossings: list,
        loops,
    };
    match Diagram::try_new(&raw) {
        Ok(diagram) => {
            let table = scan_table::<F>(rt.alloc(), &diagram)?;
            assert!(rt; table.rows().len() == rows.len());
            for (row, wanted) in table.rows().iter().zip(rows) {
                assert!(rt; row.j == wanted.0 && row.i == wanted.1 && row.dim == wanted.2);
            }
        }
        Err(_) => {
            assert!(rt; false);
        }
    }
    Ok(())
}

#[test]
fn small_diagrams_have_their_tables(rt: HostRuntime) -> Result<(), Fail> {
    has_rows::<F2, HostRuntime>(&rt, &[], 0, &[(0, 0, 1)])?;
    let apart = [(-3, 0, 1), (-1, 0, 3), (1, 0, 3), (3, 0, 1)];
    has_rows::<F3, HostRuntime>(&rt, &CURLS, 1, &apart)?;
    let without_torsion = [(-9, -3, 1), (-5, -2, 1), (-3, 0, 1), (-1, 0, 1)];
    has_rows::<F3, HostRuntime>(&rt, &TREFOIL, 0, &without_torsion)?;
    let whole = [
        (-9, -3, 1),
        (-7, -3, 1),
        (-7, -2, 1),
        (-5, -2, 1),
        (-3, 0, 1),
        (-1, 0, 1),
    ];
    has_rows::<F2, HostRuntime>(&rt, &TREFOIL, 0, &whole)
}

#[test]
fn pieces_multiply(rt: HostRuntime) -> Result<(), Fail> {
    let without_torsion = [
        (-17, -5, 1),
        (-15, -5, 3),
        (-13, -5, 3),
        (-13, -4, 1),
        (-13, -3, 1),
        (-11, -5, 1),
        (-11, -4, 3),
        (-11, -3, 3),
        (-11, -2, 1),
        (-9, -4, 3),
        (-9, -3, 3),
        (-9, -2, 5),
        (-7, -4, 1),
        (-7, -3, 1),
        (-7, -2, 9),
        (-7, 0, 1),
        (-5, -2, 7),
        (-5, 0, 4),
        (-3, -2, 2),
        (-3, 0, 6),
        (-1, 0, 4),
        (1, 0, 1),
    ];
    has_rows::<F3, HostRuntime>(&rt, &TREFOIL_AND_HOPF, 2, &without_torsion)?;
    let whole = [
        (-17, -5, 1),
        (-15, -5, 4),
        (-15, -4, 1),
        (-13, -5, 6),
        (-13, -4, 4),
        (-13, -3, 1),
        (-11, -5, 4),
        (-11, -4, 6),
        (-11, -3, 4),
        (-11, -2, 2),
        (-9, -5, 1),
        (-9, -4, 4),
        (-9, -3, 6),
        (-9, -2, 8),
        (-7, -4, 1),
        (-7, -3, 4),
        (-7, -2, 12),
        (-7, 0, 1),
        (-5, -3, 1),
        (-5, -2, 8),
        (-5, 0, 4),
        (-3, -2, 2),
        (-3, 0, 6),
        (-1, 0, 4),
        (1, 0, 1),
    ];
    has_rows::<F2, HostRuntime>(&rt, &TREFOIL_AND_HOPF, 2, &whole)
}

/// Twenty curls and eight loops are as many circles: the dimensions are the binomial coefficients.
#[test]
fn many_pieces_are_quick(rt: HostRuntime) -> Result<(), Fail> {
    let mut rows = [(0i16, 0i16, 1u128); 29];
    for place in 0..29usize {
        rows[place].0 = 2 * place as i16 - 28;
    }
    for place in 0..28usize {
        // n over k + 1 is n over k, times n - k, divided by k + 1.
        let before = rows[place].2;
        assert!(rt; before < 1_000_000_000);
        rows[place + 1].2 = before * (28 - place as u128) / (place as u128 + 1);
    }
    has_rows::<F2, HostRuntime>(&rt, &twenty_curls(), 8, &rows)
}
