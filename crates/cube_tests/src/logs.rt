//! Logs of cancellations: that the calls succeed where there is memory, and which line is refused.

ghost use Rattle.std.specs.Prelude.{◌≤◌, length};
ghost use Rattle.cancel_log.specs.declared.limits.TheConstants.{LOG_BYTES};

use cancel_log::{LOG_BYTES, LogCause, LogStop, log_of_blocks, verify_log, write_log};
use cube_signs::check_size;
use kh_types::LOOPS;
use known_links::{TREFOIL, diagram_of};
use prime_field::F2;
use std::alloc::Global;
use std::process::Abort;
use std::test::Fail;
use worker_pool::cancel_alone;

/// The rows of the table of the trefoil over two elements (Knot Atlas, "3_1", with its torsion of
/// order 2): the quantum degree, the homological degree and the dimension.
const ROWS: [(i16, i16, u32); 6] = [
    (-9, -3, 1),
    (-7, -3, 1),
    (-7, -2, 1),
    (-5, -2, 1),
    (-3, 0, 1),
    (-1, 0, 1),
];

#[test]
fn logs_of_a_trefoil_are_verified_and_refused_at_the_line_with_a_wrong_letter(
    rt: HostRuntime,
) -> Result<(), Fail> {
    let alloc = rt.alloc();
    let diagram = diagram_of(TREFOIL, 0)?;
    check_size(&diagram)?;
    assert!(rt; diagram.loops() as usize <= LOOPS);
    let made = cancel_alone::<F2>(alloc, &diagram)?;
    let written = write_log::<F2>(alloc, &diagram)?;
    check_verified(&rt, alloc, &written)?;
    let listed = log_of_blocks(alloc, &diagram, &made.blocks, &made.table)?;
    check_verified(&rt, alloc, &listed)?;
    check_spoilt(&rt, alloc, &listed)
}

/// A log is verified, and gives the table of the trefoil.
fn check_verified(rt: &impl Abort, alloc: Global, text: &[u8]) -> Result<(), Fail>
    requires { length text.now ≤ LOG_BYTES }
{
    let table = verify_log(alloc, text)?;
    assert_eq!(rt; (table.field(), table.rows().len()), (2, ROWS.len()));
    for (row, wanted) in table.rows().iter().zip(&ROWS) {
        assert_eq!(rt; (row.j, row.i, row.dim), *wanted);
    }
    Ok(())
}

/// Wherever a letter of a log becomes a question mark, its line is the first that fails.
fn check_spoilt(rt: &impl Abort, alloc: Global, text: &[u8]) -> Result<(), Fail> {
    let lines = text.iter().filter(|byte| **byte == b'\n').count();
    let mut line = 1u32;
    for (place, byte) in text.iter().enumerate() {
        if *byte == b'\n' {
            line = line.saturating_add(1);
        } else {
            let cause = cause_at(line as usize, lines);
            let spoilt = with_question_mark(alloc, text, place)?;
            assert!(rt; spoilt.len() <= LOG_BYTES);
            let stop = verify_log(alloc, &spoilt).err();
            assert_eq!(rt; stop, Some(LogStop::Line { line, cause }));
        }
    }
    Ok(())
}

/// The text with a question mark at a place.
fn with_question_mark(alloc: Global, text: &[u8], place: usize) -> Result<Vec<u8>, Fail> {
    let mut spoilt = Vec::from_slice(alloc, text)?;
    if let Some(byte) = spoilt.get_mut(place) {
        *byte = b'?';
    }
    Ok(spoilt)
}

/// What is wrong with a line of a log that has a question mark: behind the line that closes the
/// blocks come the field and the rows.
fn cause_at(line: usize, lines: usize) -> LogCause {
    if line == 2 {
        LogCause::Diagram
    } else if line.saturating_add(ROWS.len()) >= lines {
        LogCause::Table
    } else {
        LogCause::Text
    }
}
