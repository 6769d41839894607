//! Complexes whose columns are made one at a time, when their turn comes.

ghost use Rattle.std.specs.Prelude.{◌≡◌, ◌<◌, pos, ◌+ℤ◌, [], length, slice_index_or, IfOk, OnOk};
ghost use Rattle.sparse_block.specs.Complexes.{NamedComplex};
ghost use Rattle.sparse_block.specs.Inside.{lists_in};
ghost use Rattle.sparse_block.specs.Opening.{IsColumnOf, IsLastEntry, IsOpening};

use crate::{Entry, Generator};
use kh_types::NoMemory;
use prime_field::PrimeField;

/// A complex over a field, all of whose places are alive, by the names of its places, and by its
/// columns, of which each is made when it is asked for. Contracts see whole matrices.
pub trait ColumnSource<F: PrimeField>: Drop {
    ghost whole: { Self → NamedComplex };

    /// The least degree.
    fn low(&self) -> i16
        ensures low { result ≡ (whole self.now).complex.low }
        ensures opening { IsOpening F.P (whole self.now) };

    /// The names of the places of each degree, from the least one on.
    fn names(&self) -> &[Vec<Generator>]
        ensures { lists_in result.now ≡ (whole self.now).names };

    /// Puts the entries of a column out of degree number `k`, by its place, in place of those that
    /// are given. It takes memory by that list's allocator.
    fn put_column(
        &mut self,
        column: &mut Vec<Entry>,
        k: usize,
        place: usize,
    ) -> Result<(), NoMemory>
        requires degree { k < length (whole self.old).names }
        requires place { place < length (slice_index_or (whole self.old).names k []) }
        ensures same { self.new ≡ self.old }
        ensures column { OnOk result (IsColumnOf F.P (whole self.old).complex
            ((whole self.old).complex.low +ℤ pos k) place column.new.items) };

    /// The last entry of a column out of degree number `k`, by its place; none where the column has
    /// no entry.
    fn last_entry(&mut self, k: usize, place: usize) -> Result<Option<Entry>, NoMemory>
        requires degree { k < length (whole self.old).names }
        requires place { place < length (slice_index_or (whole self.old).names k []) }
        ensures same { self.new ≡ self.old }
        ensures last { IfOk result (IsLastEntry F.P (whole self.old).complex
            ((whole self.old).complex.low +ℤ pos k) place) };
}

/// A source that has the names of its places for itself.
pub trait OwnedSource<F: PrimeField>: ColumnSource<F> {
    /// The names alone.
    fn into_names(self) -> Vec<Vec<Generator>>
        ensures { lists_in result.items ≡ (Self.whole self).names };
}
