//! How a complex is made: from its columns, or without entries.

ghost use Rattle.std.specs.Prelude.{◌≡◌, ℕ, ◌<◌, ◌^◌, pos, ◌+ℤ◌, ◌≤ℤ◌, length, map, IfOk, All};
ghost use Rattle.sparse_block.specs.Complexes.{all_alive, degree_from_lists, degrees_from};
ghost use Rattle.sparse_block.specs.Complexes.{no_columns, sparse_complex, zero_complex};
ghost use Rattle.sparse_block.specs.Complexes.{HaveEntries, SquaresToZero};
ghost use Rattle.sparse_block.specs.Inside.{entries_in, lines_in, lists_in, row_entries};

use crate::counts::{name_count, place_count};
use crate::held_lines::HeldLines;
use crate::lines::rows_of;
use crate::{Complex, Entry, Generator, INLINE_ENTRIES};
use kh_types::NoMemory;
use prime_field::PrimeField;
use prime_field::laws::element_laws;
use smallvec::SmallVec;
use std::alloc::Global;
use std::marker::PhantomData;

/// The complex with these names and columns, all places alive: degree `low + k` has a place for
/// each of `names[k]`, from 0, and `columns[k]` has one column for each, ascending entries other
/// than 0 at places of the next degree, so none in the last. `Err` is want of memory alone.
pub fn build<F: PrimeField>(
    alloc: Global,
    low: i16,
    names: Vec<Vec<Generator>>,
    columns: Vec<Vec<SmallVec<Entry, INLINE_ENTRIES>>>,
) -> Result<Complex<F>, NoMemory>
    requires some { 0 < length names.items }
    requires end { (low +ℤ pos (length names.items)) ≤ℤ pos 32767 }
    requires counts { All (λ degree. length degree < 2 ^ 29) (lists_in names.items) }
    requires sizes { map length (lines_in columns.items) ≡ map length (lists_in names.items) }
    requires entries { HaveEntries F.P (lists_in names.items) (lines_in columns.items) }
    requires squares { SquaresToZero F.P
        (sparse_complex low (lists_in names.items) (lines_in columns.items)).complex }
    ensures { IfOk result (λ made.
        made ≡ sparse_complex low (lists_in names.items) (lines_in columns.items)) }
{
    element_laws::<F>();
    let alive = all_alive(alloc, &names)?;
    let rows = all_rows(alloc, &names, &columns)?;
    let held = all_held(alloc, columns)?;
    Ok(Complex {
        low,
        names,
        alive,
        columns: held,
        rows,
        field: PhantomData,
    })
}

impl<F: PrimeField> Complex<F> {
    /// The complex with these names of places, by degree from `low` on, and these places alive, all
    /// of whose entries are zero.
    pub fn zero(
        alloc: Global,
        low: i16,
        names: Vec<Vec<Generator>>,
        alive: Vec<Vec<bool>>,
    ) -> Result<Complex<F>, NoMemory>
        requires some { 0 < length names.items }
        requires end { (low +ℤ pos (length names.items)) ≤ℤ pos 32767 }
        requires counts { All (λ degree. length degree < 2 ^ 29) (lists_in names.items) }
        requires sizes { map length (lists_in alive.items) ≡ map length (lists_in names.items) }
        ensures { IfOk result (λ made.
            made ≡ zero_complex low (lists_in names.items) (lists_in alive.items)) }
    {
        element_laws::<F>();
        let columns = empty_columns(alloc, &alive)?;
        let rows = empty_rows(alloc, &alive)?;
        Ok(Complex {
            low,
            names,
            alive,
            columns,
            rows,
            field: PhantomData,
        })
    }
}

/// For each place a column without entries.
fn empty_columns(alloc: Global, alive: &[Vec<bool>]) -> Result<Vec<HeldLines>, NoMemory>
    ensures { IfOk result (λ made. made.items ≡ no_columns (lists_in alive.now)) }
{
    let mut made = Vec::with_capacity(alloc, alive.len())?;
    'degrees: for degree in alive {
        made.push(HeldLines::empty_lines(alloc, degree.len()))?;
    }
    Ok(made)
}

/// For each place past the least degree a row without entries, in the degree before its own.
fn empty_rows(alloc: Global, alive: &[Vec<bool>]) -> Result<Vec<HeldLines>, NoMemory>
    ensures { IfOk result (λ made. made.items
        ≡ map row_entries (degrees_from (lists_in alive.now) (no_columns (lists_in alive.now)))) }
{
    let mut made = Vec::with_capacity(alloc, alive.len())?;
    'degrees: for k in 0..alive.len() {
        made.push(HeldLines::empty_lines(alloc, place_count(alive, k + 1)))?;
    }
    Ok(made)
}

/// Marks every place alive.
fn all_alive(alloc: Global, names: &[Vec<Generator>]) -> Result<Vec<Vec<bool>>, NoMemory>
    ensures { IfOk result (λ made. lists_in made.items ≡ all_alive (lists_in names.now)) }
{
    let mut made = Vec::with_capacity(alloc, names.len())?;
    'degrees: for degree in names {
        made.push(vec![in alloc; true; degree.len()]?)?;
    }
    Ok(made)
}

/// The columns of each degree, as they are held.
fn all_held(
    alloc: Global,
    columns: Vec<Vec<SmallVec<Entry, INLINE_ENTRIES>>>,
) -> Result<Vec<HeldLines>, NoMemory>
    ensures { IfOk result (λ made. made.items ≡ lines_in columns.items) }
{
    let mut made = Vec::with_capacity(alloc, columns.len())?;
    'degrees: for degree in columns {
        made.push(HeldLines::of(degree))?;
    }
    Ok(made)
}

/// The rows of the differential out of each degree.
fn all_rows(
    alloc: Global,
    names: &[Vec<Generator>],
    columns: &[Vec<SmallVec<Entry, INLINE_ENTRIES>>],
) -> Result<Vec<HeldLines>, NoMemory>
    requires counts { All (λ degree. length degree < 2 ^ 29) (lists_in names.now) }
    requires sizes { map length (lines_in columns.now) ≡ map length (lists_in names.now) }
    requires entries { (p : ℕ) × HaveEntries p (lists_in names.now) (lines_in columns.now) }
    ensures { IfOk result (λ made. made.items
        ≡ map row_entries (degrees_from (all_alive (lists_in names.now)) (lines_in columns.now))) }
{
    let mut made = Vec::with_capacity(alloc, names.len())?;
    'degrees: for k in 0..names.len() {
        made.push(HeldLines::of(degree_rows(alloc, names, columns, k)?))?;
    }
    Ok(made)
}

/// The rows out of degree number `k`.
fn degree_rows(
    alloc: Global,
    names: &[Vec<Generator>],
    columns: &[Vec<SmallVec<Entry, INLINE_ENTRIES>>],
    k: usize,
) -> Result<Vec<SmallVec<Entry, INLINE_ENTRIES>>, NoMemory>
    requires degree { k < length names.now }
    requires counts { All (λ degree. length degree < 2 ^ 29) (lists_in names.now) }
    requires sizes { map length (lines_in columns.now) ≡ map length (lists_in names.now) }
    requires entries { (p : ℕ) × HaveEntries p (lists_in names.now) (lines_in columns.now) }
    ensures { IfOk result (λ made. entries_in made.items
        ≡ row_entries (degree_from_lists (all_alive (lists_in names.now))
        (lines_in columns.now) k)) }
{
    let height = name_count(names, k + 1);
    rows_of(alloc, height, &columns[k])
}
