//! A complex at one quantum degree.

ghost use Rattle.std.specs.Prelude.{◌≡◌, ◌<◌, ◌≤◌, ℕ, [], pos, ◌+ℤ◌, ◌≤ℤ◌, length, slice_index_or, false};
ghost use Rattle.std.specs.List.{list_all};
ghost use Rattle.kh_types.specs.Complex.{alive_count, degree_of, entry_of, is_zero};
ghost use Rattle.sparse_block.specs.Complexes.{column_of, high_of, name_of, place_count, row_of};
ghost use Rattle.sparse_block.specs.Entries.{entries_of};
ghost use Rattle.sparse_block.specs.Held.{no_entries};

use crate::counts::{alive_at, alive_count, name_count};
use crate::held_lines::HeldLines;
use crate::laws::complex_laws;
use crate::lines::line_at;
use crate::reading::value_at;
use crate::{Entry, Generator};
use prime_field::PrimeField;
use std::marker::{Model, PhantomData};

/// A complex over a field. Each degree from the least to the greatest has places, numbered from 0,
/// each alive or dead, and each with the name of a generator. The differential out of a degree has
/// a column for each of its places and a row for each of the next. Contracts see whole matrices.
#[derive(Drop)]
pub struct Complex<F: PrimeField> {
    pub(crate) low: i16,
    pub(crate) names: Vec<Vec<Generator>>,
    pub(crate) alive: Vec<Vec<bool>>,
    pub(crate) columns: Vec<HeldLines>,
    pub(crate) rows: Vec<HeldLines>,
    pub(crate) field: PhantomData<F>,
}

impl<F: PrimeField> Model for Complex<F> {
    ghost use Rattle.sparse_block.specs.Complexes.{NamedComplex};
    ghost use Rattle.sparse_block.specs.Inside.{IsKept, lists_in, named_complex};

    ghost Value = { NamedComplex };

    ghost view = { λ held. named_complex held.low held.names.items held.alive.items
        held.columns.items };

    ghost invariant = { λ held. IsKept F.P held.low (lists_in held.names.items)
        (lists_in held.alive.items) held.columns.items held.rows.items };
}

impl<F: PrimeField> Complex<F> {
    /// The least degree.
    pub fn low(&self) -> i16
        ensures { result ≡ self.now.complex.low }
    {
        self.low
    }

    /// The greatest degree.
    pub fn high(&self) -> i16
        ensures { result ≡ high_of self.now.complex }
    {
        (i32::from(self.low) + self.names.len() as i32 - 1) as i16
    }

    /// Whether all entries are zero.
    pub fn is_zero(&self) -> bool
        ensures { result ≡ is_zero self.now.complex }
    {
        all_empty(&self.rows)
    }

    /// How many places a degree has, alive and dead; none outside of the complex.
    pub fn places(&self, i: i16) -> u32
        ensures { result ≡ place_count self.now.complex i }
    {
        if i < self.low {
            return 0;
        }
        name_count(&self.names, distance(self.low, i))
    }

    /// How many columns out of a degree are left to search: from there on none has an entry. None
    /// is left where the degree has no entry, without a look at its columns.
    pub fn columns_left(&self, i: i16) -> u32
        ensures { (column : ℕ) → result ≤ column → column < place_count self.now.complex i
            → entries_of (column_of self.now.complex i column) ≡ [] }
    {
        if i < self.low {
            return 0;
        }
        let k = distance(self.low, i);
        if has_no_entries(&self.columns, k) {
            return 0;
        }
        name_count(&self.names, k)
    }

    /// How many places of a degree are alive; none outside of the complex.
    pub fn alive(&self, i: i16) -> u32
        ensures { result ≡ alive_count self.now.complex i }
    {
        if i < self.low {
            return 0;
        }
        alive_count(&self.alive, distance(self.low, i))
    }

    /// Whether a place of a degree is alive; none is outside of the complex.
    pub fn is_alive(&self, i: i16, place: u32) -> bool
        ensures { result ≡ slice_index_or (degree_of self.now.complex i).alive place false }
    {
        if i < self.low {
            return false;
        }
        alive_at(&self.alive, distance(self.low, i), place)
    }

    /// The entry of the differential out of degree i at a row and a column.
    pub fn entry(&self, i: i16, row: u32, column: u32) -> F
        requires low { self.now.complex.low ≤ℤ i }
        requires high { i ≤ℤ high_of self.now.complex }
        requires row { row < place_count self.now.complex (i +ℤ pos 1) }
        requires column { column < place_count self.now.complex i }
        ensures { F.value_of result ≡ entry_of self.now.complex i row column }
    {
        complex_laws(self);
        F::of(value_at(self.column(i, column), row))
    }

    /// The generator that a place of degree i stands for, whether it is alive or dead.
    pub fn name(&self, i: i16, place: u32) -> Generator
        requires low { self.now.complex.low ≤ℤ i }
        requires high { i ≤ℤ high_of self.now.complex }
        requires place { place < place_count self.now.complex i }
        ensures { result ≡ name_of self.now i place }
    {
        self.names[distance(self.low, i)][place as usize]
    }

    /// The entries of a column of the differential out of degree i, ascending by row; none in the
    /// greatest degree.
    pub fn column(&self, i: i16, place: u32) -> &[Entry]
        requires low { self.now.complex.low ≤ℤ i }
        requires high { i ≤ℤ high_of self.now.complex }
        requires place { place < place_count self.now.complex i }
        ensures { result.now ≡ entries_of (column_of self.now.complex i place) }
    {
        line_at(&self.columns, distance(self.low, i), place)
    }

    /// The entries of a row of the differential out of degree i, ascending by column. The row is a
    /// place of degree i + 1.
    pub fn row(&self, i: i16, place: u32) -> &[Entry]
        requires low { self.now.complex.low ≤ℤ i }
        requires high { (i +ℤ pos 1) ≤ℤ high_of self.now.complex }
        requires place { place < place_count self.now.complex (i +ℤ pos 1) }
        ensures { result.now ≡ entries_of (row_of self.now.complex i place) }
    {
        line_at(&self.rows, distance(self.low, i), place)
    }
}

/// Whether no line of degree number `k` has an entry.
fn has_no_entries(degrees: &[HeldLines], k: usize) -> bool
    ensures { result ≡ no_entries (slice_index_or degrees.now k []) }
{
    match degrees.get(k) {
        Some(degree) => degree.has_no_entries(),
        None => true,
    }
}

/// Whether no line of any degree has an entry.
fn all_empty(degrees: &[HeldLines]) -> bool
    ensures { result ≡ list_all no_entries degrees.now }
{
    degrees.iter().all(|degree| degree.has_no_entries())
}

/// How far a degree is above the least one.
pub(crate) fn distance(low: i16, i: i16) -> usize
    requires { low ≤ℤ i }
    ensures { i ≡ low +ℤ pos result }
{
    (i32::from(i) - i32::from(low)) as usize
}
