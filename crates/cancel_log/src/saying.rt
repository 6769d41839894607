//! What a line of the blocks of a log says.

ghost use Rattle.std.specs.Prelude.{◌≡◌, ◌≢◌, ◌∷◌, ◌++◌, List, ℕ, None, IfSome};
ghost use Rattle.std.specs.List.{position};
ghost use Rattle.cancel_log.specs.LogLines.{Says};
ghost use Rattle.cancel_log.specs.NumberWords.{HasNoSpace, IsCutAtSpace, IsPivotIn, IsPivotOf, is_space};

use crate::LogLine;
use crate::numbers::{degree_in, place_in};
use sparse_block::Pivot;

/// What a line behind the third says.
#[tactic(auto, using(crate::proofs::LineTexts::said))]
pub(crate) fn said_by(line: &[u8]) -> LogLine
    ensures { Says line.now result }
{
    if line == b"table 2".as_slice() {
        return LogLine::Close;
    }
    if let Some(word) = behind(line, b"block ".as_slice()) {
        return match degree_in(word) {
            Some(degree) => LogLine::Begin { degree },
            None => LogLine::Other,
        };
    }
    if let Some(text) = behind(line, b"cancel ".as_slice()) {
        return match pivot_in(text) {
            Some(pivot) => LogLine::Cancel { pivot },
            None => LogLine::Other,
        };
    }
    LogLine::Other
}

/// What is behind the front of a line, where it begins with that.
fn behind<'a>(line: &'a [u8], front: &[u8]) -> Option<&'a [u8]>
    ensures some { IfSome result (λ rest. line.now ≡ front.now ++ rest.now) }
    ensures none { result ≡ None → (rest : List ℕ) → line.now ≢ front.now ++ rest }
{
    line.strip_prefix(front)
}

/// The pivot whose numbers a text is the print of.
#[tactic(auto, using(crate::proofs::LineTexts::pivots))]
fn pivot_in(text: &[u8]) -> Option<Pivot>
    ensures { IsPivotIn text.now result }
{
    let (degree, places) = cut_at_space(text)?;
    let (column, row) = cut_at_space(places)?;
    pivot_of(degree, column, row)
}

/// The pivot with the numbers that three words are the print of.
#[tactic(auto, using(crate::proofs::LineTexts::words))]
fn pivot_of(degree: &[u8], column: &[u8], row: &[u8]) -> Option<Pivot>
    ensures { IsPivotOf degree.now column.now row.now result }
{
    let degree = degree_in(degree)?;
    let column = place_in(column)?;
    let row = place_in(row)?;
    Some(Pivot {
        degree,
        column,
        row,
    })
}

/// What stands before the first space of a text, and behind it.
#[tactic(auto, using(crate::proofs::LineTexts::cuts))]
fn cut_at_space(text: &[u8]) -> Option<(&[u8], &[u8])>
    ensures some { IfSome result (λ parts. IsCutAtSpace text.now parts.0.now parts.1.now) }
    ensures none { result ≡ None → HasNoSpace text.now }
{
    let space = first_space(text)?;
    Some((&text[..space], &text[space + 1..]))
}

/// The place of the first space.
fn first_space(text: &[u8]) -> Option<usize>
    ensures { result ≡ position is_space text.now }
{
    text.iter().position(|byte| *byte == b' ')
}
