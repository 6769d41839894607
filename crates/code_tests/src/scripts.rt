//! The scripts of schedules. The rows were written by hand from the rules of scripts.

use kh_types::INPUT_BYTES;
use std::alloc::Global;
use std::test::Fail;
use undo_stack::{SCRIPT_LINES, ScheduleLine, ScriptStop, read_schedule};

/// A text that has a wrong line, and the number of the first.
const WRONG_ROWS: [(&[u8], u32); 42] = [
    (b"look 1 +1", 1),
    (b"look +1 1", 1),
    (b"look -1 1", 1),
    (b"look 1 1234", 1),
    (b"look 1 0001", 1),
    (b"look 1 -0000", 1),
    (b"look 1 -", 1),
    (b"look 1 --1", 1),
    (b"look 1 - 1", 1),
    (b"look 1 1-", 1),
    (b"look 1 1.", 1),
    (b"look 1 1a", 1),
    (b"look 0 1", 1),
    (b"look 1", 1),
    (b"look 1 1 1", 1),
    (b"look1 1", 1),
    (b"look", 1),
    (b"lookk 1 1", 1),
    (b"loo 1 1", 1),
    (b"Look 1 1", 1),
    (b"LOOK 1 1", 1),
    (b"commit", 1),
    (b"commit 0", 1),
    (b"commit 00", 1),
    (b"commit 65", 1),
    (b"commit 99", 1),
    (b"commit 064", 1),
    (b"commit 001", 1),
    (b"commit 1 2", 1),
    (b"commit 1 2 3 4 5 6 7", 1),
    (b"commit 1;", 1),
    (b"1 commit", 1),
    (b"forget -0", 1),
    (b"forget 1\rforget 2", 1),
    (b"redo\x0b", 1),
    (b"commit\x0b1", 1),
    (b"commit 1\x0c", 1),
    (b"commit 1\0", 1),
    (b"\0", 1),
    (b"commit\xc2\xa01", 1),
    (b"\xef\xbb\xbfcommit 1", 1),
    (b"\n\r\ncommit 1\n \t\ncommit 2\nundo\ncommit 0\n", 6),
];

#[test]
fn reads_each_form(rt: HostRuntime) -> Result<(), Fail> {
    let rows = [
        ("look 1 -0", look(1, 0)),
        ("look 1 -00\n", look(1, 0)),
        ("look 1 000\n", look(1, 0)),
        ("look 01 -02", look(1, -2)),
        ("look 64 999", look(64, 999)),
        ("look 64 -999", look(64, -999)),
        ("look\t7\r12", look(7, 12)),
        ("  look  7  012  ", look(7, 12)),
        ("\r\tcommit\t64\r\n", commit(64)),
        ("commit 1", commit(1)),
        ("commit 09", commit(9)),
        ("forget 10\n", forget(10)),
        ("forget 01\r\n", forget(1)),
        ("forget 64 \t\r", forget(64)),
    ];
    for (text, wanted) in rows {
        let script = read_schedule(rt.alloc(), text.as_bytes())?;
        assert!(rt; script.lines.as_slice() == [(1, wanted)].as_slice());
    }
    Ok(())
}

fn look(worker: u32, block: i16) -> ScheduleLine {
    ScheduleLine::Look { worker, block }
}

fn commit(worker: u32) -> ScheduleLine {
    ScheduleLine::Commit { worker }
}

fn forget(worker: u32) -> ScheduleLine {
    ScheduleLine::Forget { worker }
}

#[test]
fn numbers_each_line(rt: HostRuntime) -> Result<(), Fail> {
    let text = b"look 1 -2\n\n \r\nlook 2 -2\ncommit 1\n\t\nforget 2\n\n";
    let wanted = [
        (1, look(1, -2)),
        (4, look(2, -2)),
        (5, commit(1)),
        (7, forget(2)),
    ];
    let script = read_schedule(rt.alloc(), text.as_slice())?;
    assert!(rt; script.lines.as_slice() == wanted.as_slice());
    Ok(())
}

#[test]
fn reads_texts_without_commands(rt: HostRuntime) -> Result<(), Fail> {
    for text in ["", "\n", "\n\n", " ", "\r", "\t \r\n \n\r"] {
        let script = read_schedule(rt.alloc(), text.as_bytes())?;
        assert!(rt; script.lines.len() == 0);
    }
    Ok(())
}

#[test]
fn stops_at_the_first_wrong_line(rt: HostRuntime) {
    for (text, line) in WRONG_ROWS {
        assert!(rt; text.len() <= INPUT_BYTES);
        let stop = read_schedule(rt.alloc(), text).err();
        assert!(rt; stop == Some(ScriptStop::Line { line }));
    }
}

/// A text, repeated, and then another.
fn repeated(alloc: Global, text: &str, times: usize, last: &str) -> Result<Vec<u8>, Fail> {
    let mut bytes = Vec::new(alloc);
    for _ in 0..times {
        bytes.extend_from_slice(text.as_bytes())?;
    }
    bytes.extend_from_slice(last.as_bytes())?;
    Ok(bytes)
}

/// Texts of so many equal pieces and a last one, at the limit on lines and above, and what stops
/// their reading.
const LONG_TEXTS: [(&str, usize, &str, Option<ScriptStop>); 10] = [
    ("\n", SCRIPT_LINES, "", None),
    ("commit 1\n", SCRIPT_LINES, "", None),
    ("\n", SCRIPT_LINES - 1, "commit 1", None),
    (
        "\n",
        SCRIPT_LINES - 1,
        "undo",
        Some(ScriptStop::Line { line: 4096 }),
    ),
    (
        "\n",
        SCRIPT_LINES,
        "commit 1",
        Some(ScriptStop::LineLimit { count: 4097 }),
    ),
    (
        "\n",
        SCRIPT_LINES,
        " ",
        Some(ScriptStop::LineLimit { count: 4097 }),
    ),
    (
        "\n",
        SCRIPT_LINES,
        "\n",
        Some(ScriptStop::LineLimit { count: 4097 }),
    ),
    (
        "undo\n",
        SCRIPT_LINES,
        "",
        Some(ScriptStop::Line { line: 1 }),
    ),
    (
        "undo\n",
        SCRIPT_LINES,
        "undo",
        Some(ScriptStop::LineLimit { count: 4097 }),
    ),
    (
        "\n",
        INPUT_BYTES,
        "",
        Some(ScriptStop::LineLimit { count: 65_536 }),
    ),
];

#[test]
fn counts_lines_up_to_the_limit(rt: HostRuntime) -> Result<(), Fail> {
    for (text, times, last, wanted) in LONG_TEXTS {
        let bytes = repeated(rt.alloc(), text, times, last)?;
        assert!(rt; bytes.len() <= INPUT_BYTES);
        let stop = read_schedule(rt.alloc(), &bytes).err();
        assert!(rt; stop == wanted);
    }
    Ok(())
}

#[test]
fn reads_the_longest_line(rt: HostRuntime) -> Result<(), Fail> {
    let words = repeated(rt.alloc(), "1 ", INPUT_BYTES / 2, "")?;
    assert!(rt; words.len() <= INPUT_BYTES);
    let stop = read_schedule(rt.alloc(), &words).err();
    assert!(rt; stop == Some(ScriptStop::Line { line: 1 }));
    Ok(())
}

#[test]
fn values_that_differ_are_not_equal(rt: HostRuntime) {
    assert!(rt; look(1, 2) != look(2, 2));
    assert!(rt; look(1, 2) != look(1, -2));
    assert!(rt; commit(1) != commit(2));
    assert!(rt; commit(1) != forget(1));
    assert!(rt; forget(1) != forget(2));
    assert!(rt; ScriptStop::Line { line: 1 } != ScriptStop::Line { line: 2 });
    assert!(rt; ScriptStop::Line { line: 4097 } != ScriptStop::LineLimit { count: 4097 });
    assert!(rt; ScriptStop::LineLimit { count: 4097 } != ScriptStop::LineLimit { count: 4098 });
    assert!(rt; ScriptStop::NoMemory != ScriptStop::Line { line: 1 });
}
