//! What every complex keeps, and what lists of entries denote.

ghost use Rattle.std.specs.Prelude.{◌≡◌, ℕ, ◌<◌, ◌^◌, ℤ, neg_ℤ, pos, ◌+ℤ◌, ◌≤ℤ◌, List, [], ◌∷◌};
ghost use Rattle.std.specs.Prelude.{length, map, slice_index, All};
ghost use Rattle.kh_types.specs.Complex.{Complex as Plain, IsComplex, degree_of, entry_of};
ghost use Rattle.kh_types.specs.Complex.{IsPivot, Pivot, cancel};
ghost use Rattle.prime_field.specs.Residues.{IsField};
ghost use Rattle.sparse_block.specs.Complexes.{column_of, place_count, row_of};
ghost use Rattle.sparse_block.specs.Entries.{AreEntries, entries_of, entry_at, line_of, value_at};
ghost use Rattle.sparse_block.specs.declared.entry.TheConstants.{INLINE_ENTRIES, MOST_PLACES, MOST_VALUES};
ghost use Rattle.sparse_block.specs.Worked.{worked_complex};
ghost use Rattle.sparse_block.specs.Entries.{Entry as Item};

use crate::Complex;
use prime_field::PrimeField;

/// The laws of a complex. It does nothing: a function calls it, and has them at hand in its proof.
pub fn complex_laws<F: PrimeField>(complex: &Complex<F>)
    ensures complex { IsComplex F.P complex.now.complex }
    ensures some { 0 < length complex.now.complex.degrees }
    ensures end { (complex.now.complex.low
        +ℤ pos (length complex.now.complex.degrees)) ≤ℤ pos 32767 }
    ensures counts { All (λ degree. length degree.alive < 2 ^ 29) complex.now.complex.degrees }
    ensures names { map length complex.now.names
        ≡ map (λ degree. length degree.alive) complex.now.complex.degrees }
{
    let _ = &complex.low;
}

/// The limits of entries: how many places and values they have, whose product is 2 to the 32, and
/// how many entries a line holds in place.
pub fn limits_of_entries()
    ensures places { MOST_PLACES ≡ 536870912 }
    ensures values { MOST_VALUES ≡ 8 }
    ensures inline { INLINE_ENTRIES ≡ 12 }
{}

/// A column and a row read one matrix: both have its entries. In a complex the entries of a column
/// are at places of the next degree, and those of a row at places of its own.
pub fn columns_and_rows()
    ensures column { (complex : Plain) (i : ℤ) (row column : ℕ)
        → slice_index (column_of complex i column) row ≡ entry_of complex i row column }
    ensures row { (complex : Plain) (i : ℤ) (row column : ℕ)
        → slice_index (row_of complex i row) column ≡ entry_of complex i row column }
    ensures entries_of_column { (p : ℕ) (complex : Plain) (i : ℤ) (column : ℕ)
        → IsComplex p complex → AreEntries p (place_count complex (i +ℤ pos 1))
        (entries_of (column_of complex i column)) }
    ensures entries_of_row { (p : ℕ) (complex : Plain) (i : ℤ) (row : ℕ)
        → IsComplex p complex → AreEntries p (place_count complex i)
        (entries_of (row_of complex i row)) }
{}

/// The entries of a line of numbers ascend by place and denote it, and no other such entries do.
pub fn entries_denote_lines()
    ensures entries { (p : ℕ) (line : List ℕ) → All (λ x. x < p) line
        → AreEntries p (length line) (entries_of line) }
    ensures values { (line : List ℕ) (place : ℕ)
        → value_at (entries_of line) place ≡ slice_index line place }
    ensures unique { (p size : ℕ) (entries : List Item) → AreEntries p size entries
        → entries_of (line_of size entries) ≡ entries }
{}

/// A worked complex, with the matrices that its columns denote, and the entries of a column and a
/// row of the first.
pub fn worked_matrices()
    ensures first { (x y z : ℕ) → (degree_of (worked_complex x y z).complex (neg_ℤ (pos 1))).matrix
        ≡ (1 ∷ 0 ∷ 1 ∷ 1 ∷ 0 ∷ 1 ∷ []) ∷ (1 ∷ 1 ∷ 1 ∷ 1 ∷ 1 ∷ 1 ∷ [])
        ∷ (0 ∷ 2 ∷ 0 ∷ 0 ∷ 2 ∷ 0 ∷ []) ∷ [] }
    ensures second { (degree_of (worked_complex 2 1 1).complex (pos 0)).matrix
        ≡ (2 ∷ 1 ∷ 1 ∷ []) ∷ [] }
    ensures column { entries_of (column_of (worked_complex 2 1 1).complex (neg_ℤ (pos 1)) 1)
        ≡ entry_at (1, 1) ∷ entry_at (2, 2) ∷ [] }
    ensures row { entries_of (row_of (worked_complex 2 1 1).complex (neg_ℤ (pos 1)) 2)
        ≡ entry_at (1, 2) ∷ entry_at (4, 2) ∷ [] }
    ensures three { IsComplex 3 (worked_complex 2 1 1).complex }
    ensures five { IsComplex 5 (worked_complex 2 3 1).complex }
{}

/// Over a field, the cancellation of an entry other than 0 leaves a complex of a complex.
pub fn cancellations_leave_complexes()
    ensures { (p : ℕ) (complex : Plain) (pivot : Pivot) → IsField p → IsComplex p complex
        → IsPivot complex pivot → IsComplex p (cancel p complex pivot) }
{}
