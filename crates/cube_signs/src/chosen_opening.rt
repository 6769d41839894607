//! The blocks over chosen generators before any cancellation, with columns that are made one at a
//! time.

ghost use Rattle.std.specs.Prelude.{◌≡◌, ◌<◌, List, map, None, All, IfOk};
ghost use Rattle.std.specs.List.{last_or};
ghost use Rattle.sparse_block.specs.Entries.{Entry as Placed};
ghost use Rattle.cube_signs.specs.Chosen.{chosen_block, has_minus, IsClosed};
ghost use Rattle.cube_signs.specs.ChosenParts.{moved_entry};
ghost use Rattle.cube_signs.specs.declared.limits.TheConstants.{PLACES};

use crate::around::Around;
use crate::chosen::{AllChosen, list_at, moved, renumber};
use crate::cube::Cube;
use crate::names::Degrees;
use kh_types::NoMemory;
use prime_field::PrimeField;
use prime_field::laws::element_laws;
use sparse_block::{ColumnSource, Entry, Generator, OwnedSource};
use std::alloc::Global;
use std::marker::{Model, PhantomData};

/// The block of a cube at a quantum degree over the generators with v- on a circle, whose number is
/// given for each state, before any cancellation; a column is made when it is asked for. Contracts
/// see whole matrices.
#[derive(Drop)]
pub struct ChosenBlock<'a, F: PrimeField> {
    cube: &'a Cube,
    circles: &'a [u8],
    lowest: Degrees,
    chosen: AllChosen,
    // Where the generators of each state begin among those of their degrees.
    bases: Vec<u32>,
    // Edges that were found for last entries.
    around: Around,
    // Edges that were found for whole columns, most of which stand before those.
    beside: Around,
    field: PhantomData<F>,
}

impl<'a, F: PrimeField> Model for ChosenBlock<'a, F> {
    ghost use Rattle.sparse_block.specs.Complexes.{NamedComplex};
    ghost use Rattle.sparse_block.specs.Inside.{lists_in};
    ghost use Rattle.cube_signs.specs.Chosen.{chosen_block, has_minus};
    ghost use Rattle.cube_signs.specs.OpeningBlocks.{IsChosenBlock};

    ghost Value = { NamedComplex };

    ghost view = { λ block. chosen_block (has_minus block.circles.now) F.P block.cube.now
        block.lowest.j };

    ghost invariant = { λ block. IsChosenBlock F.P (has_minus block.circles.now) block.cube.now
        block.lowest.i block.lowest.j (lists_in block.chosen.names.items)
        (lists_in block.chosen.before.items) block.bases.items block.around
        block.beside };
}

impl Cube {
    /// The block at a quantum degree over the generators with v- on a circle, whose number is given
    /// for each state, by its columns alone, which are made one at a time. The differential leads
    /// from these to such alone.
    pub fn chosen_opening_block<'a, F: PrimeField>(
        &'a self,
        alloc: Global,
        circles: &'a [u8],
        j: i16,
    ) -> Result<ChosenBlock<'a, F>, NoMemory>
        requires { IsClosed (has_minus circles.now) F.P self.now }
        ensures { IfOk result (λ made.
            made ≡ chosen_block (has_minus circles.now) F.P self.now j) }
    {
        element_laws::<F>();
        // (what a cube keeps)
        let _ = self.state_count();
        let bases = self.places(alloc, j)?.bases;
        let lowest = self.lowest(j);
        let chosen = self.all_chosen(alloc, circles, lowest, 2 * self.crossing_count() + 1)?;
        Ok(ChosenBlock {
            cube: self,
            circles,
            lowest,
            chosen,
            bases,
            around: Around::nowhere(alloc),
            beside: Around::nowhere(alloc),
            field: PhantomData,
        })
    }
}

impl<'a, F: PrimeField> ColumnSource<F> for ChosenBlock<'a, F> {
    ghost whole = { λ block. block };

    fn low(&self) -> i16 {
        self.lowest.i
    }

    fn names(&self) -> &[Vec<Generator>] {
        &self.chosen.names
    }

    fn put_column(
        &mut self,
        column: &mut Vec<Entry>,
        k: usize,
        place: usize,
    ) -> Result<(), NoMemory> {
        element_laws::<F>();
        let cube = self.cube;
        // (what a cube keeps)
        let _ = cube.state_count();
        let tail = self.chosen.names[k][place];
        let (near, around) = (&self.around, &mut self.beside);
        cube.put_column_near(column, F::P, &self.bases, near, around, tail)?;
        renumber(column, list_at(&self.chosen.before, k + 1));
        Ok(())
    }

    fn last_entry(&mut self, k: usize, place: usize) -> Result<Option<Entry>, NoMemory> {
        element_laws::<F>();
        let cube = self.cube;
        // (what a cube keeps)
        let _ = cube.state_count();
        let tail = self.chosen.names[k][place];
        let (near, around) = (&self.beside, &mut self.around);
        let last = cube.last_entry_near(F::P, &self.bases, near, around, tail)?;
        Ok(moved_last(last, list_at(&self.chosen.before, k + 1)))
    }
}

/// A last entry, if there is one, at its new row.
fn moved_last(last: Option<Entry>, heads: &[u32]) -> Option<Entry>
    requires { All (λ head. head < PLACES) heads.now }
    ensures { (entries : List Placed) → last ≡ last_or None entries
        → result ≡ last_or None (map (moved_entry heads.now) entries) }
{
    match last {
        Some(entry) => Some(moved(entry, heads)),
        None => None,
    }
}

impl<'a, F: PrimeField> OwnedSource<F> for ChosenBlock<'a, F> {
    fn into_names(self) -> Vec<Vec<Generator>> {
        self.chosen.names
    }
}
