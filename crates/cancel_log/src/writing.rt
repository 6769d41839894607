//! Writes logs.

ghost use Rattle.std.specs.Prelude.{◌≡◌, ◌≤◌, ◌++◌, All, IfOk, OnOk, length};
ghost use Rattle.std.specs.List.{Contains};
ghost use Rattle.circle_smoothing.specs.GeneratorCounts.{generator_count};
ghost use Rattle.circle_smoothing.specs.declared.limits.TheConstants.{GENERATORS};
ghost use Rattle.cube_signs.specs.Blocks.{block_degrees};
ghost use Rattle.kh_types.specs.Table.{table, table_text};
ghost use Rattle.kh_types.specs.declared.limits.TheConstants.{LOOPS};
ghost use Rattle.kh_lex.specs.Lines.{with_feed};
ghost use Rattle.pd_code.specs.Printing.{pd_text};
ghost use Rattle.pd_code.specs.Reading.{ReadsAsPd};
ghost use Rattle.shared_block.specs.AllBlocks.{AreBlocksOf, IsFinished};
ghost use Rattle.cancel_log.specs.LogBlocks.{block_lines};
ghost use Rattle.cancel_log.specs.LogLines.{cancel_line};
ghost use Rattle.cancel_log.specs.LogTexts.{log_text, start_lines, text_of_lines};
ghost use Rattle.cancel_log.specs.Standings.{IsFinishedBlock};
ghost use Rattle.cancel_log.specs.Verdicts.{IsLog};
ghost use Rattle.cancel_log.specs.declared.limits.TheConstants.{LOG_BYTES};

use cube_signs::Cube;
use homology_tables::Table;
use itoa::Buffer;
use kh_types::laws::diagrams::diagram_laws;
use kh_types::{Diagram, NoMemory};
use pd_code::print_pd;
use prime_field::PrimeField;
use prime_field::laws::element_laws;
use shared_block::laws::block_laws;
use shared_block::{SharedBlock, push_rows, whole_table};
use sparse_block::Pivot;
use std::alloc::Global;
use table_text::print_table;

/// A log of a diagram over a field, short enough to be verified. Which pivots it lists no clause
/// says.
#[tactic(auto, using(crate::proofs::WrittenLogs::writes))]
pub fn write_log<F: PrimeField>(alloc: Global, diagram: &Diagram) -> Result<Vec<u8>, NoMemory>
    requires size { generator_count diagram.now ≤ GENERATORS }
    requires loops { diagram.now.loops ≤ LOOPS }
    ensures log { IfOk result (λ text. IsLog F.P diagram.now text.items) }
    ensures few { IfOk result (λ text. length text.items ≤ LOG_BYTES) }
{
    element_laws::<F>();
    diagram_laws(diagram);
    let cube = Cube::new(alloc, diagram)?;
    let degrees = cube.block_degrees(alloc)?;
    let mut text = start_text::<F>(alloc, diagram)?;
    let mut rows = Vec::new(alloc);
    'degrees: for k in 0..degrees.len() {
        let held = finished_block::<F>(alloc, &cube, degrees[k])?;
        push_block(alloc, &mut text, &held)?;
        push_rows(&mut rows, &held)?;
    }
    let homology = whole_table::<F>(diagram, rows);
    push_table(alloc, &mut text, &homology)?;
    Ok(text)
}

/// The log of a diagram whose blocks are cancelled to zero, by their histories, given its homology
/// table. It is short enough to be verified.
#[tactic(auto, using(crate::proofs::WrittenLogs::writes))]
pub fn log_of_blocks<F: PrimeField>(
    alloc: Global,
    diagram: &Diagram,
    blocks: &[SharedBlock<F>],
    homology: &Table,
) -> Result<Vec<u8>, NoMemory>
    requires size { generator_count diagram.now ≤ GENERATORS }
    requires loops { diagram.now.loops ≤ LOOPS }
    requires blocks { AreBlocksOf diagram.now blocks.now }
    requires zero { All (IsFinished F.P) blocks.now }
    requires table { homology.now ≡ table F.P diagram.now }
    ensures text { IfOk result (λ text. text.items ≡ log_text F.P diagram.now blocks.now) }
    ensures log { IfOk result (λ text. IsLog F.P diagram.now text.items) }
    ensures few { IfOk result (λ text. length text.items ≤ LOG_BYTES) }
{
    element_laws::<F>();
    diagram_laws(diagram);
    let mut text = start_text::<F>(alloc, diagram)?;
    'each: for k in 0..blocks.len() {
        block_laws(&blocks[k]);
        push_block(alloc, &mut text, &blocks[k])?;
    }
    push_table(alloc, &mut text, homology)?;
    Ok(text)
}

/// The block at a quantum degree, cancelled to zero.
fn finished_block<F: PrimeField>(
    alloc: Global,
    cube: &Cube,
    j: i16,
) -> Result<SharedBlock<F>, NoMemory>
    requires { Contains (block_degrees cube.now) j }
    ensures { IfOk result (IsFinishedBlock F.P cube.now j) }
{
    let held = SharedBlock::<F>::finished(alloc, cube, j)?;
    block_laws(&held);
    Ok(held)
}

/// The text of the lines before the first block.
#[tactic(auto, using(crate::proofs::WrittenLogs::starts))]
fn start_text<F: PrimeField>(alloc: Global, diagram: &Diagram) -> Result<Vec<u8>, NoMemory>
    requires { diagram.now.loops ≤ LOOPS }
    ensures text { IfOk result (λ text. text.items ≡ text_of_lines (start_lines F.P diagram.now)) }
    ensures reads { OnOk result (ReadsAsPd (pd_text diagram.now) diagram.now) }
{
    let printed = print_pd(alloc, diagram)?;
    let field = F::P;
    let line = format!(in alloc; "\nfield {field}\n")?;
    let mut text = Vec::new(alloc);
    text.extend_from_slice(b"log 1\n")?;
    text.extend_from_slice(&printed)?;
    text.extend_from_slice(line.as_bytes())?;
    Ok(text)
}

/// Adds the lines of a block.
#[tactic(auto, using(crate::proofs::WrittenLogs::lines))]
fn push_block<F: PrimeField>(
    alloc: Global,
    text: &mut Vec<u8>,
    held: &SharedBlock<F>,
) -> Result<(), NoMemory>
    ensures { OnOk result
        (text.new.items ≡ text.old.items ++ text_of_lines (block_lines held.now)) }
{
    let j = held.degree();
    let line = format!(in alloc; "block {j}\n")?;
    text.extend_from_slice(line.as_bytes())?;
    let history = held.history();
    'pivots: for k in 0..history.len() {
        push_pivot(text, history[k])?;
    }
    Ok(())
}

/// Adds the line that cancels a pivot.
#[tactic(auto, using(crate::proofs::WrittenLogs::lines))]
fn push_pivot(text: &mut Vec<u8>, pivot: Pivot) -> Result<(), NoMemory>
    ensures { OnOk result (text.new.items ≡ text.old.items ++ with_feed (cancel_line pivot)) }
{
    let mut digits = Buffer::new();
    text.extend_from_slice(b"cancel ")?;
    text.extend_from_slice(digits.format(pivot.degree).as_bytes())?;
    text.push(b' ')?;
    text.extend_from_slice(digits.format(pivot.column).as_bytes())?;
    text.push(b' ')?;
    text.extend_from_slice(digits.format(pivot.row).as_bytes())?;
    text.push(b'\n')?;
    Ok(())
}

/// Adds the text of a table.
fn push_table(alloc: Global, text: &mut Vec<u8>, homology: &Table) -> Result<(), NoMemory>
    ensures { OnOk result (text.new.items ≡ text.old.items ++ table_text homology.now) }
{
    let lines = print_table(alloc, homology)?;
    text.extend_from_slice(&lines)?;
    Ok(())
}
