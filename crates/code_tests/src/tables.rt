//! The texts of tables and of polynomials.

use jones_sum::{jones, print_jones};
use known_links::{FIGURE_EIGHT, HOPF, TREFOIL, diagram_of};
use std::alloc::Global;
use std::test::Fail;
use table_text::{TABLE_BYTES, TableStop, print_table, read_table};

/// The table of the left-handed trefoil over two elements. Knot Atlas, page "3_1", has the
/// dimensions over the rationals, at j -9, -5, -3 and -1; the 2-torsion at i -2 and j -7 adds one
/// there and one at i -3.
const TREFOIL_TABLE: &[u8; 110] =
    b"table 2\nfield 2\nj -9 i -3 dim 1\nj -7 i -3 dim 1\nj -7 i -2 dim 1\nj -5 i -2 dim 1\nj -3 i 0 dim 1\nj -1 i 0 dim 1\n";

/// The same in version 1.
const OLD_TREFOIL_TABLE: &[u8; 102] =
    b"field 2\nj -9 i -3 dim 1\nj -7 i -3 dim 1\nj -7 i -2 dim 1\nj -5 i -2 dim 1\nj -3 i 0 dim 1\nj -1 i 0 dim 1\n";

/// What is read prints as it was in version 2, and behind the line `table 2` in version 1.
#[test]
fn reads_the_texts_of_tables(rt: HostRuntime) -> Result<(), Fail> {
    let texts = [
        "table 2\nfield 2\n",
        "table 2\nfield 3\n",
        "table 2\nfield 5\n",
        "table 2\nfield 7\n",
        "table 2\nfield 2\nj -88 i -20 dim 4194304\n",
        "table 2\nfield 2\nj 88 i 20 dim 1\n",
        "table 2\nfield 7\nj 0 i 0 dim 10\nj 0 i 1 dim 1\nj 1 i -16 dim 1\n",
    ];
    for text in texts {
        let table = read_table(rt.alloc(), text.as_bytes())?;
        let printed = print_table(rt.alloc(), &table)?;
        assert!(rt; printed.as_slice() == text.as_bytes());
    }
    let old = [
        "field 2\n",
        "field 7\nj -72 i -16 dim 4194304\nj 72 i 16 dim 1\n",
    ];
    for text in old {
        let table = read_table(rt.alloc(), text.as_bytes())?;
        let printed = print_table(rt.alloc(), &table)?;
        assert!(rt; printed.starts_with(b"table 2\n".as_slice()));
        assert!(rt; printed.ends_with(text.as_bytes()));
    }
    Ok(())
}

/// By hand from the Knot Atlas, page "3_1": the polynomial is q + q^-1 times V with t^(1/2) = -q.
#[test]
fn the_table_of_the_trefoil_has_its_values(rt: HostRuntime) -> Result<(), Fail> {
    let table = read_table(rt.alloc(), TREFOIL_TABLE)?;
    assert!(rt; table.field() == 2);
    assert!(rt; table.rows().len() == 6);
    assert!(rt; table.total() == 6);
    assert!(rt; table.dim(-2, -7) == 1);
    assert!(rt; table.dim(-7, -2) == 0);
    Ok(())
}

#[test]
fn the_old_table_of_the_trefoil_prints_as_the_new(rt: HostRuntime) -> Result<(), Fail> {
    let old = read_table(rt.alloc(), OLD_TREFOIL_TABLE)?;
    let printed = print_table(rt.alloc(), &old)?;
    assert!(rt; printed.as_slice() == TREFOIL_TABLE.as_slice());
    Ok(())
}

#[test]
fn refuses_other_texts_at_their_places(rt: HostRuntime) {
    let rows = [
        ("", 0),
        ("table 2", 0),
        ("table 2\n", 8),
        ("table 1\nfield 2\n", 0),
        ("table 02\nfield 2\n", 0),
        ("table 2\r\nfield 2\n", 0),
        (" table 2\nfield 2\n", 0),
        ("table 2\ntable 2\nfield 2\n", 8),
        ("table 2\nfield 2", 8),
        ("table 2\nfield 4\n", 8),
        ("field 2\ntable 2\n", 8),
        ("field 2", 0),
        ("field 02\n", 0),
        ("field 2\r\n", 0),
        ("\n", 0),
        ("field 2\n\n", 8),
        ("field 2\nfield 2\n", 8),
        ("field 2\nj 1 i 0 dim 1", 8),
        ("field 2\nj 01 i 0 dim 1\n", 8),
        ("field 2\nj 1 i -0 dim 1\n", 8),
        ("field 2\nj +1 i 0 dim 1\n", 8),
        ("field 2\nj  1 i 0 dim 1\n", 8),
        ("field 2\nj 1 i 0 dim 1 \n", 8),
        ("field 2\ni 0 j 1 dim 1\n", 8),
        ("field 2\nj 1 i 0 dim 0\n", 8),
        ("field 2\nj 1 i 0 dim 4194305\n", 8),
        ("field 2\nj 1 i 0 dim 99999999999999999999\n", 8),
        ("field 2\nj 73 i 0 dim 1\n", 8),
        ("field 2\nj 0 i -17 dim 1\n", 8),
        ("table 2\nfield 2\nj 89 i 0 dim 1\n", 16),
        ("table 2\nfield 2\nj 0 i -21 dim 1\n", 16),
        ("field 2\nj 1 i 0 dim 1\nj 1 i 0 dim 2\n", 22),
        ("field 2\nj 1 i 0 dim 1\nj 1 i -1 dim 1\n", 22),
        ("field 2\nj 1 i 0 dim 1\nj 0 i 1 dim 1\n", 22),
        ("field 2\nj -7 i -3 dim 1\nj -9 i -3 dim 1\n", 24),
        ("table 2\nfield 2\nj -7 i -3 dim 1\nj -9 i -3 dim 1\n", 32),
        ("field 2\nj 1 i 0 dim \u{e9}\n", 8),
    ];
    for (text, place) in rows {
        assert!(rt; stop_of(rt.alloc(), text.as_bytes()) == Some(TableStop::Text { place }));
    }
}

/// Where the text is cut off behind a line feed, but that of its first line, it is a table's; else
/// its last line is wrong.
#[test]
fn refuses_the_last_line_of_each_other_beginning(rt: HostRuntime) {
    let mut place = 0;
    for end in 0..TREFOIL_TABLE.len() {
        let stop = stop_of(rt.alloc(), &TREFOIL_TABLE[..end]);
        if end > 8 && end as u32 == place {
            assert!(rt; stop.is_none());
        } else {
            assert!(rt; stop == Some(TableStop::Text { place }));
        }
        if TREFOIL_TABLE[end] == b'\n' {
            place = end as u32 + 1;
        }
    }
}

/// Why no table is read from a text, if it is short enough to be read and is no table's.
fn stop_of(alloc: Global, text: &[u8]) -> Option<TableStop> {
    if text.len() <= TABLE_BYTES {
        read_table(alloc, text).err()
    } else {
        None
    }
}

/// The polynomial is q + q^-1 times the one V that the Knot Atlas has for the link, with
/// t^(1/2) = -q, multiplied by hand; the last is (q + q^-1)^24.
#[test]
fn known_links_have_their_jones_lines(rt: HostRuntime) -> Result<(), Fail> {
    let rows: [(&[[u8; 4]], u8, &str); 5] = [
        (&[], 0, "jones 1*q^0\n"),
        (TREFOIL, 0, "jones -1*q^-9 1*q^-5 1*q^-3 1*q^-1\n"),
        (FIGURE_EIGHT, 0, "jones 1*q^-5 1*q^5\n"),
        (HOPF, 1, "jones 1*q^-7 2*q^-5 2*q^-3 2*q^-1 1*q^1\n"),
        (&[], 24, LARGEST),
    ];
    for (arcs, loops, wanted) in rows {
        let line = print_jones(rt.alloc(), &jones(&diagram_of(arcs, loops)?))?;
        assert!(rt; line.as_slice() == wanted.as_bytes());
    }
    Ok(())
}

const LARGEST: &str =
    "jones 1*q^-24 24*q^-22 276*q^-20 2024*q^-18 10626*q^-16 42504*q^-14 134596*q^-12 346104*q^-10 735471*q^-8 1307504*q^-6 1961256*q^-4 2496144*q^-2 2704156*q^0 2496144*q^2 1961256*q^4 1307504*q^6 735471*q^8 346104*q^10 134596*q^12 42504*q^14 10626*q^16 2024*q^18 276*q^20 24*q^22 1*q^24\n";
