//! The rows of one block, once it is cancelled to zero.

ghost use Rattle.kh_types.specs.Table.{rows_at};
ghost use Rattle.homology_tables.specs.DegreeRows.{AddsAllOrNone};
ghost use Rattle.shared_block.specs.AllBlocks.{IsFinished};

use crate::SharedBlock;
use crate::laws::block_laws;
use homology_tables::Row;
use kh_types::NoMemory;
use prime_field::PrimeField;
use prime_field::laws::element_laws;

/// Adds the rows of the quantum degree of a block that is cancelled to zero, ascending by degree.
/// What memory it takes is that in which `rows` grow; where it runs out they are as before.
pub fn push_rows<F: PrimeField>(rows: &mut Vec<Row>, block: &SharedBlock<F>) -> Result<(), NoMemory>
    requires { IsFinished F.P block.now }
    ensures { AddsAllOrNone result rows.old.items rows.new.items
        (rows_at F.P block.now.diagram block.now.degree) }
{
    element_laws::<F>();
    block_laws(block);
    let reach = block.diagram().crossings().len();
    homology_tables::push_rows(rows, block.complex(), block.degree(), reach)
}
