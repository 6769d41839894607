//! The lines of the table at the end of a log, against those of the table that it proves.

ghost use Rattle.std.specs.Prelude.{◌≡◌, ◌≢◌, [], None, Some, IfSome, slice_get, true, false};
ghost use Rattle.cancel_log.specs.LinesLeft.{DifferAt, TakesLine};

use crate::lines::Lines;

/// The number of the first line that is left and is not that of other lines, if there is one.
pub(crate) fn first_difference(lines: &mut Lines<'_>, wanted: &mut Lines<'_>) -> Option<usize>
    ensures none { result ≡ None → lines.old.rest ≡ wanted.old.rest }
    ensures some { IfSome result (DifferAt lines.old wanted.old) }
{
    let mut number = lines.number();
    'lines: while let Some(line) = lines.next() {
        if !is_next(wanted, line) {
            return Some(number);
        }
        number = lines.number();
    }
    if is_end(wanted) { None } else { Some(number) }
}

/// Takes a line, if there is one, and answers whether it is this.
#[tactic(auto, using(crate::proofs::Differences::nexts))]
fn is_next(lines: &mut Lines<'_>, line: &[u8]) -> bool
    ensures yes { result ≡ true → TakesLine lines.old line.now lines.new }
    ensures no { result ≡ false → slice_get lines.old.rest 0 ≢ Some line.now }
{
    match lines.next() {
        Some(other) => other == line,
        None => false,
    }
}

/// Whether no line is left; else one is taken.
#[tactic(auto, using(crate::proofs::Differences::ends))]
fn is_end(lines: &mut Lines<'_>) -> bool
    ensures yes { result ≡ true → lines.old.rest ≡ [] }
    ensures no { result ≡ false → slice_get lines.old.rest 0 ≢ None }
{
    lines.next().is_none()
}
