//! The places of a block before any cancellation: their names, and where those of each state begin.

ghost use Rattle.std.specs.Prelude.{◌≡◌, ℤ, ◌<◌, [], pos, ◌+ℤ◌, length, slice_index_or, IfOk, OnOk};
ghost use Rattle.std.specs.List.{Contains};
ghost use Rattle.sparse_block.specs.Inside.{lists_in};
ghost use Rattle.sparse_block.specs.Opening.{IsColumnOf, IsLastEntry};
ghost use Rattle.cube_signs.specs.Blocks.{block_degrees, named_block};
ghost use Rattle.cube_signs.specs.Columns.{AreFound};
ghost use Rattle.cube_signs.specs.OpeningBlocks.{AreBlockPlaces};

use crate::around::Around;
use crate::cube::Cube;
use crate::names::Degrees;
use crate::places::Places;
use kh_types::NoMemory;
use prime_field::PrimeField;
use prime_field::laws::element_laws;
use sparse_block::{Entry, Generator};
use std::alloc::Global;

/// The names of the places of the block at a quantum degree, and where the generators of each state
/// begin among those of their degrees. With its cube they make an `OpeningBlock`, and by reference
/// a `BorrowedBlock`.
#[derive(Drop)]
pub struct BlockPlaces {
    pub(crate) least: Degrees,
    pub(crate) names: Vec<Vec<Generator>>,
    pub(crate) bases: Vec<u32>,
}

impl Cube {
    /// The places of the block at a quantum degree.
    pub fn block_places<F: PrimeField>(
        &self,
        alloc: Global,
        j: i16,
    ) -> Result<BlockPlaces, NoMemory>
        requires { Contains (block_degrees self.now) j }
        ensures { IfOk result (AreBlockPlaces F.P self.now j) }
    {
        element_laws::<F>();
        // (the number of crossings is small, and so is that of generators)
        let _ = (self.crossing_count(), self.state_count());
        let Places { bases, sizes } = self.places(alloc, j)?;
        let span = self.span(alloc, &sizes, self.lowest(j))?;
        let names = self.all_names(alloc, &sizes, span.least, span.count)?;
        Ok(BlockPlaces {
            least: span.least,
            names,
            bases,
        })
    }
}

impl BlockPlaces {
    /// Puts the entries of a column out of degree number `k` of a cube's block, by its place, in
    /// place of others; other edges that were found before serve where they can.
    pub(crate) fn put_column<F: PrimeField>(
        &self,
        cube: &Cube,
        near: &Around,
        around: &mut Around,
        column: &mut Vec<Entry>,
        k: usize,
        place: usize,
    ) -> Result<(), NoMemory>
        requires places { AreBlockPlaces F.P cube.now self.now.least.j self.now }
        requires degree { k < length (lists_in self.now.names.items) }
        requires place { place < length (slice_index_or (lists_in self.now.names.items) k []) }
        requires near { AreFound F.P cube.now self.now.bases.items near.now.state
            near.now.outs.items }
        requires found { AreFound F.P cube.now self.now.bases.items around.old.state
            around.old.outs.items }
        ensures found { AreFound F.P cube.now self.now.bases.items around.new.state
            around.new.outs.items }
        ensures column { OnOk result (IsColumnOf F.P
            (named_block F.P cube.now self.now.least.j).complex
            ((named_block F.P cube.now self.now.least.j).complex.low +ℤ pos k) place
            column.new.items) }
    {
        element_laws::<F>();
        // (what a cube keeps)
        let _ = cube.state_count();
        let tail = self.names[k][place];
        cube.put_column_near(column, F::P, &self.bases, near, around, tail)
    }

    /// The last entry of a column out of degree number `k` of a cube's block, by its place; none
    /// where it has no entry.
    pub(crate) fn last_entry<F: PrimeField>(
        &self,
        cube: &Cube,
        near: &Around,
        around: &mut Around,
        k: usize,
        place: usize,
    ) -> Result<Option<Entry>, NoMemory>
        requires places { AreBlockPlaces F.P cube.now self.now.least.j self.now }
        requires degree { k < length (lists_in self.now.names.items) }
        requires place { place < length (slice_index_or (lists_in self.now.names.items) k []) }
        requires near { AreFound F.P cube.now self.now.bases.items near.now.state
            near.now.outs.items }
        requires found { AreFound F.P cube.now self.now.bases.items around.old.state
            around.old.outs.items }
        ensures found { AreFound F.P cube.now self.now.bases.items around.new.state
            around.new.outs.items }
        ensures last { IfOk result (IsLastEntry F.P
            (named_block F.P cube.now self.now.least.j).complex
            ((named_block F.P cube.now self.now.least.j).complex.low +ℤ pos k) place) }
    {
        element_laws::<F>();
        // (what a cube keeps)
        let _ = cube.state_count();
        let tail = self.names[k][place];
        cube.last_entry_near(F::P, &self.bases, near, around, tail)
    }
}
