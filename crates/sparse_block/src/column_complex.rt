//! A complex before any cancellation, by its columns alone.

ghost use Rattle.std.specs.Prelude.{◌≡◌, ℕ, ◌<◌, ◌^◌, pos, ◌+ℤ◌, ◌≤ℤ◌, length, map, All, IfOk};
ghost use Rattle.std.specs.List.{last_or};
ghost use Rattle.sparse_block.specs.Complexes.{sparse_complex};
ghost use Rattle.sparse_block.specs.Complexes.{HaveEntries, MakeComplex, SquaresToZero};
ghost use Rattle.sparse_block.specs.Inside.{lines_in, lists_in};

use crate::building::build;
use crate::{ColumnSource, Complex, Entry, Generator, INLINE_ENTRIES, OwnedSource};
use kh_types::NoMemory;
use prime_field::PrimeField;
use prime_field::laws::element_laws;
use smallvec::SmallVec;
use std::alloc::Global;
use std::marker::{Model, PhantomData};

/// A complex over a field, all of whose places are alive, by the names of its places and the
/// entries of its columns, in each degree from the least on. Contracts see whole matrices.
#[derive(Drop)]
pub struct ColumnComplex<F: PrimeField> {
    low: i16,
    names: Vec<Vec<Generator>>,
    columns: Vec<Vec<SmallVec<Entry, INLINE_ENTRIES>>>,
    field: PhantomData<F>,
}

impl<F: PrimeField> Model for ColumnComplex<F> {
    ghost use Rattle.sparse_block.specs.Complexes.{MakeComplex, NamedComplex, sparse_complex};
    ghost use Rattle.sparse_block.specs.Inside.{lines_in, lists_in};

    ghost Value = { NamedComplex };

    ghost view = { λ held. sparse_complex held.low (lists_in held.names.items)
        (lines_in held.columns.items) };

    ghost invariant = { λ held. MakeComplex F.P held.low (lists_in held.names.items)
        (lines_in held.columns.items) };
}

/// What a complex is made of: the names of the places of each degree from the least on, and their
/// columns.
#[derive(Drop)]
pub struct ColumnParts {
    pub names: Vec<Vec<Generator>>,
    pub columns: Vec<Vec<SmallVec<Entry, INLINE_ENTRIES>>>,
}

impl<F: PrimeField> ColumnComplex<F> {
    /// The complex with these names of places, by degree from `low` on, and the entries of these
    /// columns.
    pub fn new(
        low: i16,
        names: Vec<Vec<Generator>>,
        columns: Vec<Vec<SmallVec<Entry, INLINE_ENTRIES>>>,
    ) -> ColumnComplex<F>
        requires some { 0 < length names.items }
        requires end { (low +ℤ pos (length names.items)) ≤ℤ pos 32767 }
        requires counts { All (λ degree. length degree < 2 ^ 29) (lists_in names.items) }
        requires sizes { map length (lines_in columns.items) ≡ map length (lists_in names.items) }
        requires entries { HaveEntries F.P (lists_in names.items) (lines_in columns.items) }
        requires squares { SquaresToZero F.P
            (sparse_complex low (lists_in names.items) (lines_in columns.items)).complex }
        ensures { result ≡ sparse_complex low (lists_in names.items) (lines_in columns.items) }
    {
        ColumnComplex {
            low,
            names,
            columns,
            field: PhantomData,
        }
    }

    /// The least degree.
    pub fn low(&self) -> i16
        ensures { result ≡ self.now.complex.low }
    {
        self.low
    }

    /// What the complex is made of beside its least degree.
    pub fn into_parts(self) -> ColumnParts
        ensures complex { sparse_complex self.complex.low (lists_in result.names.items)
            (lines_in result.columns.items) ≡ self }
        ensures make { MakeComplex F.P self.complex.low (lists_in result.names.items)
            (lines_in result.columns.items) }
    {
        ColumnParts {
            names: self.names,
            columns: self.columns,
        }
    }

    /// The same complex with its rows beside its columns, to be cancelled in.
    pub fn build(self, alloc: Global) -> Result<Complex<F>, NoMemory>
        ensures { IfOk result (λ made. made ≡ self) }
    {
        let low = self.low();
        let ColumnParts { names, columns } = self.into_parts();
        build(alloc, low, names, columns)
    }
}

impl<F: PrimeField> ColumnSource<F> for ColumnComplex<F> {
    ghost whole = { λ complex. complex };

    fn low(&self) -> i16 {
        element_laws::<F>();
        self.low
    }

    fn names(&self) -> &[Vec<Generator>] {
        &self.names
    }

    fn put_column(
        &mut self,
        column: &mut Vec<Entry>,
        k: usize,
        place: usize,
    ) -> Result<(), NoMemory> {
        element_laws::<F>();
        column.clear();
        column.extend_from_slice(self.columns[k][place].as_slice())?;
        Ok(())
    }

    fn last_entry(&mut self, k: usize, place: usize) -> Result<Option<Entry>, NoMemory> {
        element_laws::<F>();
        Ok(last_of(self.columns[k][place].as_slice()))
    }
}

/// The last of some entries.
fn last_of(entries: &[Entry]) -> Option<Entry>
    ensures { result ≡ last_or None entries.now }
{
    if entries.is_empty() {
        return None;
    }
    Some(entries[entries.len() - 1])
}

impl<F: PrimeField> OwnedSource<F> for ColumnComplex<F> {
    fn into_names(self) -> Vec<Vec<Generator>> {
        self.names
    }
}
