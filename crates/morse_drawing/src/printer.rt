//! Prints drawings.

ghost use Rattle.std.specs.Prelude.{◌≡◌, ◌++◌, string_bytes, IfOk, OnOk};
ghost use Rattle.morse_drawing.specs.Joins.{IsFaultless};
ghost use Rattle.morse_drawing.specs.Texts.{
  IsPlaced,
  bars,
  drawing_text,
  line_text,
  passing,
  position_at,
  slice_cell,
  slice_word,
  strands_after,
};

use crate::slice::Slice;
use kh_types::NoMemory;
use std::alloc::Global;

/// The text of a drawing: for each slice a line with its word, its position, and the cells of the
/// row.
pub fn print_slices(alloc: Global, slices: &[Slice]) -> Result<Vec<u8>, NoMemory>
    requires { IsFaultless slices.now }
    ensures { IfOk result (λ text. text.items ≡ drawing_text slices.now) }
{
    let mut text = String::new(alloc);
    let mut strands = 0;
    'slices: for slice in slices {
        push_line(alloc, &mut text, strands, *slice)?;
        strands = strands_after(strands, *slice);
    }
    Ok(text.into_bytes())
}

/// Adds the line of a slice, below a row of some strands.
fn push_line(alloc: Global, text: &mut String, strands: usize, slice: Slice) -> Result<(), NoMemory>
    requires { IsPlaced strands slice }
    ensures { OnOk result (string_bytes text.new
        ≡ string_bytes text.old ++ line_text strands slice) }
{
    let (word, at, cell) = (slice_word(slice), position_at(slice), slice_cell(slice));
    let start = format!(in alloc; "{word} {at}:")?;
    text.push_str(start.as_str())?;
    push_bars(text, at as usize - 1)?;
    text.push_str(" ")?;
    text.push_str(cell)?;
    push_bars(text, passing(strands, slice) + 1 - at as usize)?;
    text.push_str("\n")?;
    Ok(())
}

/// Adds the cells of some strands that pass by.
fn push_bars(text: &mut String, count: usize) -> Result<(), NoMemory>
    ensures { OnOk result (string_bytes text.new ≡ string_bytes text.old ++ bars count) }
{
    'bars: for _ in 0..count {
        text.push_str(" |")?;
    }
    Ok(())
}

/// The position of a slice.
fn position_at(slice: Slice) -> u8
    ensures { result ≡ position_at slice }
{
    match slice {
        Slice::Cap { at } | Slice::Cup { at } | Slice::Cross { at, .. } => at,
    }
}

/// How many strands there are behind a slice.
fn strands_after(strands: usize, slice: Slice) -> usize
    requires { IsPlaced strands slice }
    ensures { result ≡ strands_after strands slice }
{
    match slice {
        Slice::Cap { .. } => strands + 2,
        Slice::Cup { .. } => strands - 2,
        Slice::Cross { .. } => strands,
    }
}

/// How many strands pass by a slice.
fn passing(strands: usize, slice: Slice) -> usize
    requires { IsPlaced strands slice }
    ensures { result ≡ passing strands slice }
{
    match slice {
        Slice::Cap { .. } => strands,
        Slice::Cup { .. } | Slice::Cross { .. } => strands - 2,
    }
}

/// The word of a slice.
fn slice_word(slice: Slice) -> &'static str
    ensures { result.now ≡ slice_word slice }
{
    match slice {
        Slice::Cap { .. } => "open",
        Slice::Cup { .. } => "close",
        Slice::Cross { slot, .. } if slot % 2 == 0 => "right",
        Slice::Cross { .. } => "left",
    }
}

/// The cell of a slice.
fn slice_cell(slice: Slice) -> &'static str
    ensures { result.now ≡ slice_cell slice }
{
    match slice {
        Slice::Cap { .. } => "/\\",
        Slice::Cup { .. } => "\\/",
        Slice::Cross { slot, .. } if slot % 2 == 0 => "-/",
        Slice::Cross { .. } => "\\-",
    }
}
