//! The polynomials of known links.

use jones_sum::{COEFFICIENTS, Laurent, exponent_at, jones};
use known_links::diagram_of;
use std::process::Abort;
use std::test::Fail;

/// A link with its Jones polynomial V in t, as the tables have it: the lowest exponent of t^(1/2),
/// and the coefficients from there on, each at an exponent of t one higher.
struct Row {
    name: &'static str,
    crossings: &'static [[u8; 4]],
    loops: u8,
    lowest: i16,
    coefficients: &'static [i128],
}

/// The polynomials of knots and links with a name such as 5_2 or L6a4 are those of the Knot Atlas,
/// its Rolfsen knot table and its Thistlethwaite link table; that of the Whitehead link is
/// Wikipedia's. A mirror image has that with 1/t for t, and a loop apart multiplies V by -t^(1/2) -
/// t^(-1/2).
const ROWS: &[Row] = &[
    Row {
        name: "the unknot",
        crossings: &[],
        loops: 1,
        lowest: 0,
        coefficients: &[1],
    },
    Row {
        name: "the unknot with a curl",
        crossings: &[[1, 1, 2, 2]],
        loops: 0,
        lowest: 0,
        coefficients: &[1],
    },
    Row {
        name: "the unlink of two components",
        crossings: &[],
        loops: 2,
        lowest: -1,
        coefficients: &[-1, -1],
    },
    Row {
        name: "the unlink of three components",
        crossings: &[],
        loops: 3,
        lowest: -2,
        coefficients: &[1, 2, 1],
    },
    Row {
        name: "3_1, the left-handed trefoil",
        crossings: &[[1, 4, 2, 5], [3, 6, 4, 1], [5, 2, 6, 3]],
        loops: 0,
        lowest: -8,
        coefficients: &[-1, 1, 0, 1],
    },
    Row {
        name: "the right-handed trefoil, its mirror image",
        crossings: &[[4, 2, 5, 1], [6, 4, 1, 3], [2, 6, 3, 5]],
        loops: 0,
        lowest: 2,
        coefficients: &[1, 0, 1, -1],
    },
    Row {
        name: "4_1",
        crossings: &[[4, 2, 5, 1], [8, 6, 1, 5], [6, 3, 7, 4], [2, 7, 3, 8]],
        loops: 0,
        lowest: -4,
        coefficients: &[1, -1, 1, -1, 1],
    },
    Row {
        name: "5_1",
        crossings: &[
            [1, 6, 2, 7],
            [3, 8, 4, 9],
            [5, 10, 6, 1],
            [7, 2, 8, 3],
            [9, 4, 10, 5],
        ],
        loops: 0,
        lowest: -14,
        coefficients: &[-1, 1, -1, 1, 0, 1],
    },
    Row {
        name: "5_2",
        crossings: &[
            [1, 4, 2, 5],
            [3, 8, 4, 9],
            [5, 10, 6, 1],
            [9, 6, 10, 7],
            [7, 2, 8, 3],
        ],
        loops: 0,
        lowest: -12,
        coefficients: &[-1, 1, -1, 2, -1, 1],
    },
    Row {
        name: "6_1",
        crossings: &[
            [1, 4, 2, 5],
            [7, 10, 8, 11],
            [3, 9, 4, 8],
            [9, 3, 10, 2],
            [5, 12, 6, 1],
            [11, 6, 12, 7],
        ],
        loops: 0,
        lowest: -8,
        coefficients: &[1, -1, 1, -2, 2, -1, 1],
    },
    Row {
        name: "8_19, as the closed braid (s1 s2)^4",
        crossings: &[
            [12, 2, 13, 1],
            [7, 3, 8, 2],
            [8, 14, 9, 13],
            [3, 15, 4, 14],
            [4, 10, 5, 9],
            [15, 11, 16, 10],
            [16, 6, 1, 5],
            [11, 7, 12, 6],
        ],
        loops: 0,
        lowest: 6,
        coefficients: &[1, 0, 1, 0, 0, -1],
    },
    Row {
        name: "L2a1, the Hopf link",
        crossings: &[[4, 1, 3, 2], [2, 3, 1, 4]],
        loops: 0,
        lowest: -5,
        coefficients: &[-1, 0, -1],
    },
    Row {
        name: "its mirror image",
        crossings: &[[1, 3, 2, 4], [3, 1, 4, 2]],
        loops: 0,
        lowest: 1,
        coefficients: &[-1, 0, -1],
    },
    Row {
        name: "the Hopf link with a loop apart",
        crossings: &[[4, 1, 3, 2], [2, 3, 1, 4]],
        loops: 1,
        lowest: -6,
        coefficients: &[1, 1, 1, 1],
    },
    Row {
        name: "the Whitehead link, as the closed braid s1 s2^-1 s1 s2^-1 s1",
        crossings: &[
            [5, 2, 6, 1],
            [2, 8, 3, 9],
            [9, 7, 10, 6],
            [7, 3, 8, 4],
            [4, 5, 1, 10],
        ],
        loops: 0,
        lowest: -3,
        coefficients: &[-1, 1, -2, 1, -2, 1],
    },
    Row {
        name: "L6a4, the Borromean rings",
        crossings: &[
            [6, 1, 7, 2],
            [12, 8, 9, 7],
            [4, 12, 1, 11],
            [10, 5, 11, 6],
            [8, 4, 5, 3],
            [2, 9, 3, 10],
        ],
        loops: 0,
        lowest: -6,
        coefficients: &[-1, 3, -2, 4, -2, 3, -1],
    },
];

/// A link of 17 to 20 crossings with its state sum: the lowest exponent of q, and the coefficients
/// from there on, at each second exponent.
struct Large {
    name: &'static str,
    crossings: &'static [[u8; 4]],
    lowest: i16,
    coefficients: &'static [i128],
}

/// The polynomials are those of a Python program that was written for this test: it goes over the
/// crossings once, and keeps for each way in which the open ends are joined so far a polynomial.
const LARGE: &[Large] = &[
    Large {
        name: "the closed braid of 3 strands 1 -2 1 -2 1 -2 1 -2 1 -2 1 -2 1 -2 1 -2 1",
        crossings: &[
            [13, 2, 14, 1],
            [2, 24, 3, 25],
            [25, 15, 26, 14],
            [15, 3, 16, 4],
            [4, 27, 5, 26],
            [27, 16, 28, 17],
            [17, 6, 18, 5],
            [6, 28, 7, 29],
            [29, 19, 30, 18],
            [19, 7, 20, 8],
            [8, 31, 9, 30],
            [31, 20, 32, 21],
            [21, 10, 22, 9],
            [10, 32, 11, 33],
            [33, 23, 34, 22],
            [23, 11, 24, 12],
            [12, 13, 1, 34],
        ],
        lowest: -16,
        coefficients: &[
            1, -7, 21, -41, 65, -85, 91, -77, 46, 1, -44, 78, -91, 85, -65, 41, -21, 7, -1,
        ],
    },
    Large {
        name: "the closed braid of 4 strands 1 -2 3 1 -2 3 1 -2 3 1 -2 3 1 -2 3 1 -2 3",
        crossings: &[
            [19, 2, 20, 1],
            [2, 11, 3, 12],
            [29, 4, 30, 3],
            [12, 21, 13, 20],
            [21, 30, 22, 31],
            [4, 23, 5, 22],
            [31, 14, 32, 13],
            [14, 5, 15, 6],
            [23, 16, 24, 15],
            [6, 33, 7, 32],
            [33, 24, 34, 25],
            [16, 35, 17, 34],
            [25, 8, 26, 7],
            [8, 17, 9, 18],
            [35, 10, 36, 9],
            [18, 27, 1, 26],
            [27, 36, 28, 19],
            [10, 29, 11, 28],
        ],
        lowest: -8,
        coefficients: &[
            1, -10, 43, -103, 174, -231, 245, -202, 113, 6, -126, 209, -238, 215, -154, 96, -50,
            21, -6, 1,
        ],
    },
    Large {
        name: "the closed braid of 3 strands 1 2 1 2 1 2 1 2 1 2 1 2 1 2 1 2 1 2 1",
        crossings: &[
            [14, 2, 15, 1],
            [27, 3, 28, 2],
            [28, 16, 29, 15],
            [3, 17, 4, 16],
            [4, 30, 5, 29],
            [17, 31, 18, 30],
            [18, 6, 19, 5],
            [31, 7, 32, 6],
            [32, 20, 33, 19],
            [7, 21, 8, 20],
            [8, 34, 9, 33],
            [21, 35, 22, 34],
            [22, 10, 23, 9],
            [35, 11, 36, 10],
            [36, 24, 37, 23],
            [11, 25, 12, 24],
            [12, 38, 13, 37],
            [25, 27, 26, 38],
            [26, 14, 1, 13],
        ],
        lowest: 16,
        coefficients: &[1, 1, 1, 1, 0, 0, 0, 0, 0, 0, 1, 0, -1],
    },
    Large {
        name: "the closed braid of 3 strands 1 -2 1 -2 1 -2 1 -2 1 -2 1 -2 1 -2 1 -2 1 -2 1 -2",
        crossings: &[
            [28, 2, 29, 1],
            [2, 15, 3, 16],
            [16, 30, 17, 29],
            [30, 3, 31, 4],
            [4, 18, 5, 17],
            [18, 31, 19, 32],
            [32, 6, 33, 5],
            [6, 19, 7, 20],
            [20, 34, 21, 33],
            [34, 7, 35, 8],
            [8, 22, 9, 21],
            [22, 35, 23, 36],
            [36, 10, 37, 9],
            [10, 23, 11, 24],
            [24, 38, 25, 37],
            [38, 11, 39, 12],
            [12, 26, 13, 25],
            [26, 39, 27, 40],
            [40, 14, 1, 13],
            [14, 27, 15, 28],
        ],
        lowest: -21,
        coefficients: &[
            1, -9, 35, -85, 160, -252, 333, -375, 350, -249, 92, 92, -249, 350, -375, 333, -252,
            160, -85, 35, -9, 1,
        ],
    },
];

/// The polynomial here is q + q^-1 times V with t^(1/2) = -q. By hand: the unknot has V = 1, so q +
/// q^-1; the unlink of two components V = -t^(1/2) - t^(-1/2), that is q + q^-1, so q^2 + 2 + q^-2;
/// the Hopf link V = -t^(-1/2) - t^(-5/2), that is q^-1 + q^-5, so 1 + q^-2 + q^-4 + q^-6.
#[test]
fn known_links_have_the_polynomials_of_the_tables(rt: HostRuntime) -> Result<(), Fail> {
    for row in ROWS {
        let polynomial = jones(&diagram_of(row.crossings, row.loops)?);
        for place in 0..COEFFICIENTS {
            let exponent = exponent_at(place);
            let wanted = coefficient_in_q(row, exponent - 1).checked_add(coefficient_in_q(
                row,
                exponent + 1,
            ));
            assert_eq!(rt;
                Some(polynomial.coefficient(exponent)),
                wanted,
                "{} at {exponent}",
                row.name
            );
        }
    }
    Ok(())
}

/// The empty link has the state with no circles alone.
#[test]
fn the_empty_link_has_the_polynomial_one(rt: HostRuntime) -> Result<(), Fail> {
    let polynomial = jones(&diagram_of(&[], 0)?);
    for place in 0..COEFFICIENTS {
        let exponent = exponent_at(place);
        let wanted = if exponent == 0 { 1 } else { 0 };
        assert_eq!(rt; polynomial.coefficient(exponent), wanted);
    }
    Ok(())
}

/// The coefficient of V at an exponent of q, where t^(1/2) = -q.
fn coefficient_in_q(row: &Row, exponent: i16) -> i128 {
    let above = exponent.checked_sub(row.lowest).unwrap_or(-1);
    if above < 0 || above % 2 != 0 {
        return 0;
    }
    let coefficient = row.coefficients.get(above as usize / 2).copied();
    let sign = if exponent % 2 == 0 { 1 } else { -1 };
    coefficient.unwrap_or(0).checked_mul(sign).unwrap_or(0)
}

/// Closed braids of 17 to 20 crossings have the polynomials of a program that goes over no states.
#[test]
fn large_links_have_these_polynomials(rt: HostRuntime) -> Result<(), Fail> {
    for link in LARGE {
        let polynomial = jones(&diagram_of(link.crossings, 0)?);
        has_coefficients(&rt, &polynomial, link);
    }
    Ok(())
}

fn has_coefficients(rt: &impl Abort, polynomial: &Laurent, link: &Large) {
    for place in 0..COEFFICIENTS {
        let exponent = exponent_at(place);
        let above = exponent.checked_sub(link.lowest).unwrap_or(-1);
        let listed = if above < 0 || above % 2 != 0 {
            0
        } else {
            link.coefficients
                .get(above as usize / 2)
                .copied()
                .unwrap_or(0)
        };
        assert!(rt; polynomial.coefficient(exponent) == listed);
    }
}
