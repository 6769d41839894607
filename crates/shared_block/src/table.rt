//! The homology table of a diagram.

ghost use Rattle.std.specs.Prelude.{◌≡◌, ◌≤◌, ◌++◌, All, IfOk, OnOk};
ghost use Rattle.std.specs.List.{Contains, flat_map};
ghost use Rattle.circle_smoothing.specs.GeneratorCounts.{generator_count};
ghost use Rattle.circle_smoothing.specs.declared.limits.TheConstants.{GENERATORS};
ghost use Rattle.kh_types.specs.Table.{rows_at, table};
ghost use Rattle.cube_signs.specs.Blocks.{block_degrees};
ghost use Rattle.shared_block.specs.AllBlocks.{AreBlocksOf, IsFinished};

use crate::SharedBlock;
use crate::rows::push_rows;
use circle_smoothing::CountedDiagram;
use cube_signs::{Cube, SmallDiagram, counted_degrees};
use homology_tables::{Row, Table};
use kh_types::laws::diagrams::diagram_laws;
use kh_types::{Diagram, NoMemory};
use prime_field::PrimeField;
use prime_field::laws::element_laws;
use std::alloc::Global;

/// The homology table of a diagram over a field.
pub fn homology_table<F: PrimeField>(alloc: Global, diagram: &Diagram) -> Result<Table, NoMemory>
    requires size { generator_count diagram.now ≤ GENERATORS }
    ensures { IfOk result (λ made. made ≡ table F.P diagram.now) }
{
    let small = SmallDiagram::known(CountedDiagram::of_diagram(diagram));
    small_table::<F>(alloc, &small)
}

/// The same, of a diagram whose cube is known to be within the limit. One block is in memory at a
/// time.
pub fn small_table<F: PrimeField>(alloc: Global, small: &SmallDiagram) -> Result<Table, NoMemory>
    ensures { IfOk result (λ made. made ≡ table F.P small.now) }
{
    let counted = small.counted();
    let diagram = counted.diagram();
    let cube = Cube::new(alloc, diagram)?;
    let degrees = counted_degrees(alloc, counted)?;
    let mut rows = Vec::new(alloc);
    'degrees: for k in 0..degrees.len() {
        push_block::<F>(alloc, &mut rows, &cube, degrees[k])?;
    }
    Ok(whole_table::<F>(diagram, rows))
}

/// Adds the rows of the block at a quantum degree, which is made, cancelled to zero and dropped.
fn push_block<F: PrimeField>(
    alloc: Global,
    rows: &mut Vec<Row>,
    cube: &Cube,
    j: i16,
) -> Result<(), NoMemory>
    requires { Contains (block_degrees cube.now) j }
    ensures { OnOk result (rows.new.items ≡ rows.old.items ++ rows_at F.P cube.now j) }
{
    let block = SharedBlock::<F>::finished(alloc, cube, j)?;
    push_rows(rows, &block)
}

/// The homology table of a diagram, from its blocks once they are cancelled to zero.
pub fn table_of<F: PrimeField>(
    alloc: Global,
    diagram: &Diagram,
    blocks: &[SharedBlock<F>],
) -> Result<Table, NoMemory>
    requires size { generator_count diagram.now ≤ GENERATORS }
    requires blocks { AreBlocksOf diagram.now blocks.now }
    requires zero { All (IsFinished F.P) blocks.now }
    ensures { IfOk result (λ made. made ≡ table F.P diagram.now) }
{
    let mut rows = Vec::new(alloc);
    'places: for k in 0..blocks.len() {
        push_rows(&mut rows, &blocks[k])?;
    }
    Ok(whole_table::<F>(diagram, rows))
}

/// The homology table of a diagram, from the rows of all its blocks.
pub fn whole_table<F: PrimeField>(diagram: &Diagram, rows: Vec<Row>) -> Table
    requires size { generator_count diagram.now ≤ GENERATORS }
    requires rows { rows.items ≡ flat_map (rows_at F.P diagram.now) (block_degrees diagram.now) }
    ensures { result ≡ table F.P diagram.now }
{
    element_laws::<F>();
    diagram_laws(diagram);
    Table::of_rows(F::P, rows)
}
