//! A block as the lines of a log cancel it. Column reduction has cancelled it to zero before they
//! are read. While they name the pivots that it found, in its order, each of them is one, and a
//! count alone moves on; from the first other line on, the pivots are cancelled one by one.

ghost use Rattle.std.specs.Prelude.{◌≡◌, ◌++◌, ◌≤◌, [], true, false, length, slice_get, Some};
ghost use Rattle.std.specs.Prelude.{IfOk, OnErr, OnOk};
ghost use Rattle.std.specs.List.{Contains};
ghost use Rattle.kh_types.specs.Complex.{is_zero};
ghost use Rattle.kh_types.specs.Table.{rows_at};
ghost use Rattle.cube_signs.specs.Blocks.{block_degrees};
ghost use Rattle.shared_block.specs.AllBlocks.{IsFinished};
ghost use Rattle.shared_block.specs.BlockHistories.{block_with, complex_of};
ghost use Rattle.shared_block.specs.Commits.{is_pivot, with_pivot};
ghost use Rattle.cancel_log.specs.LoggedBlocks.{named_of};

use cube_signs::Cube;
use homology_tables::Row;
use kh_types::NoMemory;
use prime_field::PrimeField;
use prime_field::laws::element_laws;
use shared_block::laws::block_laws;
use shared_block::{SharedBlock, push_rows};
use sparse_block::{Entry, Pivot};
use std::alloc::Global;
use std::marker::Model;

/// A block of a cube, and how many pivots of its history lines have named: all, unless it is
/// cancelled to zero. Contracts see a `BlockHistory` with these alone.
#[derive(Drop)]
pub(crate) struct LoggedBlock<'a, F: PrimeField> {
    cube: &'a Cube,
    held: SharedBlock<F>,
    named: usize,
}

impl<'a, F: PrimeField> Model for LoggedBlock<'a, F> {
    ghost use Rattle.shared_block.specs.BlockHistories.{BlockHistory};
    ghost use Rattle.cancel_log.specs.LoggedBlocks.{IsNamedSoFar, named_of};

    ghost Value = { BlockHistory };

    ghost view = { λ block. named_of block.held block.named };

    ghost invariant = { λ block. IsNamedSoFar F.P block.cube.now block.held block.named };
}

impl<'a, F: PrimeField> LoggedBlock<'a, F> {
    /// The block at a quantum degree, before any line cancels in it.
    pub(crate) fn begun(
        alloc: Global,
        cube: &'a Cube,
        j: i16,
    ) -> Result<LoggedBlock<'a, F>, NoMemory>
        requires { Contains (block_degrees cube.now) j }
        ensures { IfOk result (λ made. made ≡ block_with cube.now j []) }
    {
        let held = SharedBlock::finished(alloc, cube, j)?;
        Ok(LoggedBlock {
            cube,
            held,
            named: 0,
        })
    }

    /// Cancels a pivot that a line names, where it is an entry other than zero, and answers whether
    /// it is; else the block is unchanged, and where memory runs out.
    pub(crate) fn cancel_at(
        &mut self,
        scratch: &mut Vec<Entry>,
        pivot: Pivot,
    ) -> Result<bool, NoMemory>
        ensures taken { IfOk result (λ taken. taken ≡ is_pivot (complex_of F.P self.old) pivot) }
        ensures cancelled { IfOk result (λ taken.
            taken ≡ true → self.new ≡ with_pivot self.old pivot) }
        ensures same { IfOk result (λ taken. taken ≡ false → self.new ≡ self.old) }
        ensures unchanged { OnErr result (self.new ≡ self.old) }
    {
        if is_named_next(&self.held, self.named, pivot) {
            block_laws(&self.held);
            self.named += 1;
            return Ok(true);
        }
        if self.named == self.held.history().len() {
            let taken = self.held.cancel_at(scratch, pivot)?;
            self.named = self.held.history().len();
            return Ok(taken);
        }
        let mut made = block_to(scratch, self.cube, &self.held, self.named)?;
        let taken = made.cancel_at(scratch, pivot)?;
        self.named = made.history().len();
        self.held = made;
        Ok(taken)
    }

    /// Whether all entries of what is left are zero.
    pub(crate) fn is_zero(&self) -> bool
        ensures { result ≡ is_zero (complex_of F.P self.now) }
    {
        element_laws::<F>();
        block_laws(&self.held);
        self.named == self.held.history().len() && self.held.is_zero()
    }

    /// Adds the rows of the block, once it is cancelled to zero.
    pub(crate) fn push_rows(&self, rows: &mut Vec<Row>) -> Result<(), NoMemory>
        requires { IsFinished F.P self.now }
        ensures { OnOk result (rows.new.items
            ≡ rows.old.items ++ rows_at F.P self.now.diagram self.now.degree) }
    {
        push_rows(rows, &self.held)
    }
}

/// Whether a pivot is the one behind so many of a history.
fn is_named_next<F: PrimeField>(held: &SharedBlock<F>, named: usize, pivot: Pivot) -> bool
    ensures { result ≡ true → slice_get held.now.history named ≡ Some pivot }
{
    held.history().get(named) == Some(&pivot)
}

/// A block, with so many pivots of its history alone.
#[tactic(auto, using(crate::proofs::NamedPivots::makes))]
fn block_to<F: PrimeField>(
    scratch: &mut Vec<Entry>,
    cube: &Cube,
    held: &SharedBlock<F>,
    named: usize,
) -> Result<SharedBlock<F>, NoMemory>
    requires diagram { held.now.diagram ≡ cube.now }
    requires degree { Contains (block_degrees cube.now) held.now.degree }
    requires few { named ≤ length held.now.history }
    ensures { IfOk result (λ made. made ≡ named_of held.now named) }
{
    block_laws(held);
    let history = held.history();
    let mut made = SharedBlock::<F>::of_cube(*scratch.allocator(), cube, held.degree())?;
    'pivots: for k in 0..named {
        made.cancel_at(scratch, history[k])?;
    }
    Ok(made)
}
