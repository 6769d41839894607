//! The block of a cube before any cancellation, of which the places are borrowed.

ghost use Rattle.std.specs.Prelude.{◌≡◌, ◌⊎◌, ℤ};
ghost use Rattle.cube_signs.specs.Blocks.{named_block};
ghost use Rattle.cube_signs.specs.OpeningBlocks.{AreBlockPlaces, IsAround};

use crate::around::Around;
use crate::block_places::BlockPlaces;
use crate::cube::Cube;
use kh_types::NoMemory;
use prime_field::PrimeField;
use prime_field::laws::element_laws;
use sparse_block::{ColumnSource, Entry, Generator};
use std::alloc::Global;
use std::marker::{Model, PhantomData};

/// The block of a cube at a quantum degree, before any cancellation, by places that are borrowed,
/// and edges that were found before; a column is made when it is asked for. Contracts see the code
/// and the quantum degree.
#[derive(Drop)]
pub struct BorrowedBlock<'a, F: PrimeField> {
    cube: &'a Cube,
    places: &'a BlockPlaces,
    near: &'a Around,
    // Edges that were found for last entries.
    around: Around,
    // Edges that were found for whole columns, most of which stand before those.
    beside: Around,
    field: PhantomData<F>,
}

impl<'a, F: PrimeField> Model for BorrowedBlock<'a, F> {
    ghost use Rattle.std.specs.Prelude.{ℤ};
    ghost use Rattle.kh_types.specs.Code.{Code};
    ghost use Rattle.cube_signs.specs.OpeningBlocks.{IsBorrowedBlock};

    ghost Value = { Code × ℤ };

    ghost view = { λ block. (block.cube.now, block.places.now.least.j) };

    ghost invariant = { λ block. IsBorrowedBlock F.P block.cube.now block.places.now block.near.now
        block.around block.beside };
}

impl Cube {
    /// The block that has these places, by its columns alone, which are made one at a time.
    pub fn borrowed_block<'a, F: PrimeField>(
        &'a self,
        alloc: Global,
        places: &'a BlockPlaces,
        near: &'a Around,
    ) -> BorrowedBlock<'a, F>
        requires { (j : ℤ) × AreBlockPlaces F.P self.now j places.now
            × IsAround F.P self.now j near.now }
        ensures { (j : ℤ) → AreBlockPlaces F.P self.now j places.now → result ≡ (self.now, j) }
    {
        // (the number of crossings is small)
        let _ = self.crossing_count();
        BorrowedBlock {
            cube: self,
            places,
            near,
            around: Around::nowhere(alloc),
            beside: Around::nowhere(alloc),
            field: PhantomData,
        }
    }
}

impl<'a, F: PrimeField> BorrowedBlock<'a, F> {
    /// Edges that were found for a last entry. No clause says which.
    pub fn into_around(self) -> Around
        ensures { IsAround F.P self.entry.0 self.entry.1 result }
    {
        element_laws::<F>();
        self.around
    }
}

/// The edges that were found last, where there are any, or those that were found before. No clause
/// says which.
fn latest<'a>(near: &'a Around, around: &'a Around) -> &'a Around
    ensures { (result.now ≡ near.now) ⊎ (result.now ≡ around.now) }
{
    if around.is_found() {
        return around;
    }
    near
}

impl<'a, F: PrimeField> ColumnSource<F> for BorrowedBlock<'a, F> {
    ghost whole = { λ block. named_block F.P block.0 block.1 };

    fn low(&self) -> i16 {
        self.places.least.i
    }

    fn names(&self) -> &[Vec<Generator>] {
        &self.places.names
    }

    fn put_column(
        &mut self,
        column: &mut Vec<Entry>,
        k: usize,
        place: usize,
    ) -> Result<(), NoMemory> {
        let near = latest(self.near, &self.around);
        self.places
            .put_column::<F>(self.cube, near, &mut self.beside, column, k, place)
    }

    fn last_entry(&mut self, k: usize, place: usize) -> Result<Option<Entry>, NoMemory> {
        self.places
            .last_entry::<F>(self.cube, self.near, &mut self.around, k, place)
    }
}
