//! Cancellations of a pivot.

ghost use Rattle.std.specs.Prelude.{◌≡◌, ◌⊎◌, pos, ◌+ℤ◌, length};
ghost use Rattle.kh_types.specs.Complex.{IsPivot, cancel, pivot_at};
ghost use Rattle.sparse_block.specs.Changes.{AreChanged};
ghost use Rattle.sparse_block.specs.Complexes.{column_of, place_count, row_of};
ghost use Rattle.sparse_block.specs.Entries.{entries_of};

use crate::Complex;
use crate::change::Change;
use crate::clearing::{Pair, clear_neighbours, clear_own, kill};
use crate::complex::distance;
use prime_field::PrimeField;
use prime_field::laws::element_laws;

impl<F: PrimeField> Complex<F> {
    /// Cancels a pivot, given the columns and rows of its differential that this changes. Takes no
    /// memory.
    pub fn exchange(&mut self, change: Change)
        requires pivot { IsPivot self.old.complex change.pivot }
        requires columns { AreChanged (place_count self.old.complex change.pivot.degree)
            (column_of self.old.complex change.pivot.degree)
            (column_of (cancel F.P self.old.complex change.pivot) change.pivot.degree)
            change.columns }
        requires rows { AreChanged
            (place_count self.old.complex (change.pivot.degree +ℤ pos 1))
            (row_of self.old.complex change.pivot.degree)
            (row_of (cancel F.P self.old.complex change.pivot) change.pivot.degree)
            change.rows }
        ensures complex { self.new.complex ≡ cancel F.P self.old.complex change.pivot }
        ensures names { self.new.names ≡ self.old.names }
    {
        element_laws::<F>();
        let Change {
            degree,
            column,
            row,
            columns,
            rows,
        } = change;
        let k = distance(self.low, degree);
        self.columns[k].exchange(columns);
        self.rows[k].exchange(rows);
        clear_neighbours(&mut self.columns, &mut self.rows, Pair { k, column, row });
        kill(&mut self.alive, Pair { k, column, row });
    }

    /// Cancels a pivot that stands alone in its column or alone in its row: no entry besides those
    /// of its two places changes. In place, without memory.
    pub fn drop_pair(&mut self, degree: i16, column: u32, row: u32)
        requires pivot { IsPivot self.old.complex (pivot_at degree column row) }
        requires alone { (length (entries_of (column_of self.old.complex degree column)) ≡ 1)
            ⊎ (length (entries_of (row_of self.old.complex degree row)) ≡ 1) }
        ensures complex { self.new.complex
            ≡ cancel F.P self.old.complex (pivot_at degree column row) }
        ensures names { self.new.names ≡ self.old.names }
    {
        element_laws::<F>();
        let k = distance(self.low, degree);
        clear_own(&mut self.columns, &mut self.rows, Pair { k, column, row });
        clear_neighbours(&mut self.columns, &mut self.rows, Pair { k, column, row });
        kill(&mut self.alive, Pair { k, column, row });
    }
}
