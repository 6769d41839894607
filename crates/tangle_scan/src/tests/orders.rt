//! Scans of diagrams in orders of the crossings that nobody would choose: they have the same
//! tables.

ghost use Rattle.order_laws.specs.Orders.{IsReordered};

use crate::finished::table::ScanRow;
use crate::scanning::{scan_table, scan_table_by};
use arrayvec::ArrayVec;
use kh_types::{CROSSINGS, Crossing, Diagram, RawCode};
use prime_field::F2;
use std::process::Abort;
use std::test::Fail;

/// Ten links of 13 and 14 crossings.
const LINKS: [&[[u8; 4]]; 10] = [
    &[
        [1, 18, 2, 17],
        [18, 3, 19, 2],
        [9, 19, 10, 20],
        [3, 11, 4, 10],
        [20, 4, 21, 5],
        [11, 22, 12, 21],
        [22, 13, 23, 12],
        [5, 23, 6, 24],
        [13, 7, 14, 6],
        [24, 14, 25, 15],
        [7, 26, 8, 25],
        [15, 8, 16, 9],
        [26, 1, 17, 16],
    ],
    &[
        [1, 12, 2, 11],
        [2, 21, 3, 20],
        [21, 4, 22, 3],
        [12, 5, 13, 4],
        [22, 13, 23, 14],
        [5, 24, 6, 23],
        [6, 15, 7, 14],
        [15, 8, 16, 7],
        [8, 24, 9, 25],
        [25, 17, 26, 16],
        [9, 18, 10, 17],
        [18, 1, 19, 10],
        [19, 11, 20, 26],
    ],
    &[
        [1, 15, 2, 14],
        [15, 3, 16, 2],
        [3, 17, 4, 16],
        [17, 5, 18, 4],
        [5, 19, 6, 18],
        [19, 7, 20, 6],
        [7, 21, 8, 20],
        [21, 9, 22, 8],
        [9, 23, 10, 22],
        [23, 11, 24, 10],
        [11, 25, 12, 24],
        [25, 13, 26, 12],
        [13, 1, 14, 26],
    ],
    &[
        [1, 21, 2, 20],
        [2, 12, 3, 11],
        [21, 13, 22, 12],
        [22, 4, 23, 3],
        [13, 5, 14, 4],
        [14, 24, 15, 23],
        [5, 25, 6, 24],
        [6, 16, 7, 15],
        [25, 17, 26, 16],
        [26, 8, 27, 7],
        [17, 9, 18, 8],
        [18, 28, 19, 27],
        [9, 1, 10, 28],
        [10, 20, 11, 19],
    ],
    &[
        [1, 1, 2, 26],
        [2, 26, 3, 25],
        [3, 25, 4, 24],
        [4, 24, 5, 23],
        [5, 23, 6, 22],
        [6, 22, 7, 21],
        [7, 21, 8, 20],
        [8, 20, 9, 19],
        [9, 19, 10, 18],
        [10, 18, 11, 17],
        [11, 17, 12, 16],
        [12, 16, 13, 15],
        [13, 15, 14, 14],
    ],
    &[
        [1, 8, 2, 7],
        [2, 15, 3, 14],
        [3, 22, 4, 21],
        [8, 16, 9, 15],
        [9, 23, 10, 22],
        [10, 5, 11, 4],
        [16, 24, 17, 23],
        [17, 6, 18, 5],
        [18, 12, 19, 11],
        [24, 1, 25, 6],
        [25, 13, 26, 12],
        [26, 20, 21, 19],
        [13, 7, 14, 20],
    ],
    &[
        [1, 14, 2, 13],
        [14, 3, 15, 2],
        [3, 16, 4, 15],
        [16, 5, 17, 4],
        [5, 18, 6, 17],
        [18, 7, 19, 6],
        [7, 20, 8, 19],
        [20, 9, 21, 8],
        [21, 28, 22, 27],
        [28, 23, 27, 22],
        [9, 24, 10, 23],
        [24, 11, 25, 10],
        [11, 26, 12, 25],
        [26, 1, 13, 12],
    ],
    &[
        [28, 21, 1, 22],
        [22, 1, 23, 2],
        [2, 23, 3, 24],
        [10, 28, 11, 27],
        [26, 12, 27, 11],
        [12, 26, 13, 25],
        [24, 14, 25, 13],
        [20, 9, 21, 10],
        [8, 19, 9, 20],
        [18, 7, 19, 8],
        [6, 17, 7, 18],
        [16, 5, 17, 6],
        [4, 15, 5, 16],
        [14, 3, 15, 4],
    ],
    &[
        [1, 15, 2, 14],
        [15, 3, 16, 2],
        [3, 17, 4, 16],
        [17, 5, 18, 4],
        [5, 19, 6, 18],
        [19, 7, 20, 6],
        [7, 1, 8, 20],
        [8, 22, 9, 21],
        [22, 10, 23, 9],
        [10, 24, 11, 23],
        [24, 12, 25, 11],
        [12, 26, 13, 25],
        [26, 14, 21, 13],
    ],
    &[
        [1, 21, 2, 20],
        [11, 2, 12, 3],
        [21, 13, 22, 12],
        [3, 22, 4, 23],
        [13, 5, 14, 4],
        [23, 14, 24, 15],
        [5, 25, 6, 24],
        [15, 6, 16, 7],
        [25, 17, 26, 16],
        [7, 26, 8, 27],
        [17, 9, 18, 8],
        [27, 18, 28, 19],
        [9, 1, 10, 28],
        [19, 10, 20, 11],
    ],
];

/// How many orders of each are tried.
const ORDERS: usize = 10;

/// The diagram of a list of crossings.
pub fn diagram_of<R: Abort>(rt: &R, crossings: &[[u8; 4]]) -> Diagram {
    let mut list: ArrayVec<Crossing, CROSSINGS> = ArrayVec::new();
    for slots in crossings {
        assert!(rt; list.len() < CROSSINGS);
        list.push(Crossing(*slots));
    }
    let raw = RawCode {
        crossings: list,
        loops: 0,
    };
    Diagram::try_new(&raw).expect(rt, "a link")
}

/// The crossings of a diagram in an order that a number draws.
#[tactic(auto, using(crate::proofs::OrderLemmas::steps))]
fn drawn_order(diagram: &Diagram, number: usize) -> ArrayVec<Crossing, CROSSINGS>
    ensures { IsReordered diagram.now.crossings result.items }
{
    let mut left = diagram.to_raw().crossings;
    let mut made: ArrayVec<Crossing, CROSSINGS> = ArrayVec::new();
    let mut drawn = number;
    'crossings: while !left.is_empty() {
        drawn = drawn.wrapping_mul(1_103_515_245).wrapping_add(12_345) % 2_147_483_648;
        let crossing = left.remove(drawn / 65_536 % left.len());
        made.push(crossing);
    }
    made
}

/// Whether two lists of rows are equal.
fn are_same(rows: &[ScanRow], others: &[ScanRow]) -> bool {
    rows.len() == others.len() && rows.iter().zip(others).all(|(one, other)| one == other)
}

#[test]
fn tables_do_not_depend_on_the_order(rt: HostRuntime) -> Result<(), Fail> {
    for link in LINKS {
        let diagram = diagram_of(&rt, link);
        let table = scan_table::<F2>(rt.alloc(), &diagram)?;
        for number in 0..ORDERS {
            let order = drawn_order(&diagram, number);
            let other = scan_table_by::<F2>(rt.alloc(), &diagram, &order)?;
            assert!(&rt; are_same(table.rows(), other.rows()));
        }
    }
    Ok(())
}
