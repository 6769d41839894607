//! What a cancellation makes of the columns and rows that it changes.

ghost use Rattle.std.specs.Prelude.{◌≡◌, ◌≢◌, ℕ, map, true, IfOk};
ghost use Rattle.sparse_block.specs.Entries.{value_at};
ghost use Rattle.cancel_step.specs.Copies.{WasPatched};
ghost use Rattle.cancel_step.specs.Lines.{AreLines, entries_with, line_cleared};
ghost use Rattle.cancel_step.specs.Updates.{IsAlone};

use crate::copied_lines::SomeLines;
use crate::patched::Update;
use crate::{Look, Patch};
use kh_types::NoMemory;
use prime_field::laws::element_laws;
use prime_field::{PrimeField, quotient};
use smallvec::SmallVec;
use sparse_block::{Entry, Line, subtract_into, value_at};
use std::alloc::Global;

/// For how many entries of a line there is room from the first. Few lines have more.
const USUAL_ENTRIES: usize = 64;

/// Updates the columns and rows that were copied. For a pivot that stands alone in its column or
/// its row nothing is computed: its cancellation only takes entries out.
pub fn patch<F: PrimeField>(alloc: Global, look: Look<F>) -> Result<Patch<F>, NoMemory>
    ensures { IfOk result (λ patch. patch ≡ look) }
{
    if is_alone(&look) {
        return Ok(Patch { look, update: None });
    }
    let update = updated(alloc, &look)?;
    Ok(Patch {
        look,
        update: Some(update),
    })
}

/// Whether the pivot is the only entry of its row, or of its column.
fn is_alone<F: PrimeField>(look: &Look<F>) -> bool
    ensures { result ≡ true → IsAlone look.now }
{
    look.columns().len() == 1 || look.rows().len() == 1
}

/// The columns and rows that were copied, as they are after the cancellation.
fn updated<F: PrimeField>(alloc: Global, look: &Look<F>) -> Result<Update, NoMemory>
    ensures { IfOk result (λ made.
        WasPatched F.P look.now made.columns.items made.rows.items) }
{
    element_laws::<F>();
    let pivot = look.pivot;
    let mut scratch = Vec::with_capacity(alloc, USUAL_ENTRIES)?;
    let columns = lines_cleared::<F>(&mut scratch, &look.columns(), pivot.column, pivot.row)?;
    let rows = lines_cleared::<F>(&mut scratch, &look.rows(), pivot.row, pivot.column)?;
    Ok(Update { columns, rows })
}

/// Takes from each line the multiple of the pivot's line that clears the place across.
fn lines_cleared<F: PrimeField>(
    scratch: &mut Vec<Entry>,
    lines: &SomeLines<'_>,
    own: u32,
    across: u32,
) -> Result<Vec<Line>, NoMemory>
    requires entries { (size : ℕ) × AreLines F.P size lines.now }
    requires pivot { value_at (entries_with lines.now own) across ≢ 0 }
    ensures { IfOk result (λ made. (size : ℕ)
        → AreLines F.P size lines.now → made.items
        ≡ map (line_cleared F.P size (entries_with lines.now own) across) lines.now) }
{
    element_laws::<F>();
    let alloc = *scratch.allocator();
    let pivot_line = line_at(lines, own);
    let pivot = F::of(value_at(pivot_line, across));
    let mut made = Vec::with_capacity(alloc, lines.len())?;
    'lines: for k in 0..lines.len() {
        let (place, line) = lines.at(k);
        let factor = quotient(F::of(value_at(line, across)), pivot);
        subtract_into(scratch, line, factor, pivot_line)?;
        let entries = SmallVec::from_slice(alloc, scratch)?;
        made.push(Line { place, entries })?;
    }
    Ok(made)
}

/// The entries of the line with a place; none where no line has it.
fn line_at<'a>(lines: &'a SomeLines<'_>, place: u32) -> &'a [Entry]
    ensures { result.now ≡ entries_with lines.now place }
{
    'lines: for k in 0..lines.len() {
        let (found, entries) = lines.at(k);
        if found == place {
            return entries;
        }
    }
    &[]
}
