//! The block of a cube before any cancellation, with columns that are made one at a time.

ghost use Rattle.std.specs.Prelude.{◌≡◌, ℤ, IfOk};
ghost use Rattle.std.specs.List.{Contains};
ghost use Rattle.cube_signs.specs.Blocks.{block_degrees, named_block};
ghost use Rattle.cube_signs.specs.OpeningBlocks.{AreBlockPlaces};

use crate::around::Around;
use crate::block_places::BlockPlaces;
use crate::cube::Cube;
use kh_types::NoMemory;
use prime_field::PrimeField;
use sparse_block::{ColumnSource, Entry, Generator, OwnedSource};
use std::alloc::Global;
use std::marker::{Model, PhantomData};

/// The block of a cube at a quantum degree, before any cancellation, by the names of its places; a
/// column is made when it is asked for. Contracts see whole matrices.
#[derive(Drop)]
pub struct OpeningBlock<'a, F: PrimeField> {
    cube: &'a Cube,
    places: BlockPlaces,
    // Edges that were found for last entries.
    around: Around,
    // Edges that were found for whole columns, most of which stand before those.
    beside: Around,
    field: PhantomData<F>,
}

impl<'a, F: PrimeField> Model for OpeningBlock<'a, F> {
    ghost use Rattle.sparse_block.specs.Complexes.{NamedComplex};
    ghost use Rattle.cube_signs.specs.Blocks.{named_block};
    ghost use Rattle.cube_signs.specs.OpeningBlocks.{IsOpeningBlock};

    ghost Value = { NamedComplex };

    ghost view = { λ block. named_block F.P block.cube.now block.places.least.j };

    ghost invariant = { λ block. IsOpeningBlock F.P block.cube.now block.places block.around
        block.beside };
}

impl Cube {
    /// The block at a quantum degree, by its columns alone, which are made one at a time.
    pub fn opening_block<F: PrimeField>(
        &self,
        alloc: Global,
        j: i16,
    ) -> Result<OpeningBlock<'_, F>, NoMemory>
        requires { Contains (block_degrees self.now) j }
        ensures { IfOk result (λ made. made ≡ named_block F.P self.now j) }
    {
        let places = self.block_places::<F>(alloc, j)?;
        Ok(self.opening_at(alloc, places))
    }

    /// The same, of its places.
    pub fn opening_at<F: PrimeField>(
        &self,
        alloc: Global,
        places: BlockPlaces,
    ) -> OpeningBlock<'_, F>
        requires { (j : ℤ) × AreBlockPlaces F.P self.now j places }
        ensures { (j : ℤ) → AreBlockPlaces F.P self.now j places
            → result ≡ named_block F.P self.now j }
    {
        // (the number of crossings is small)
        let _ = self.crossing_count();
        OpeningBlock {
            cube: self,
            places,
            around: Around::nowhere(alloc),
            beside: Around::nowhere(alloc),
            field: PhantomData,
        }
    }
}

impl<'a, F: PrimeField> ColumnSource<F> for OpeningBlock<'a, F> {
    ghost whole = { λ block. block };

    fn low(&self) -> i16 {
        self.places.least.i
    }

    fn names(&self) -> &[Vec<Generator>] {
        &self.places.names
    }

    fn put_column(
        &mut self,
        column: &mut Vec<Entry>,
        k: usize,
        place: usize,
    ) -> Result<(), NoMemory> {
        let (near, around) = (&self.around, &mut self.beside);
        self.places
            .put_column::<F>(self.cube, near, around, column, k, place)
    }

    fn last_entry(&mut self, k: usize, place: usize) -> Result<Option<Entry>, NoMemory> {
        let (near, around) = (&self.beside, &mut self.around);
        self.places
            .last_entry::<F>(self.cube, near, around, k, place)
    }
}

impl<'a, F: PrimeField> OwnedSource<F> for OpeningBlock<'a, F> {
    fn into_names(self) -> Vec<Vec<Generator>> {
        self.places.names
    }
}
