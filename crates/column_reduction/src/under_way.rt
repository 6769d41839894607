//! A column reduction under way: a look finds the next column that has a pivot, and changes
//! nothing; to take it needs no memory. The reduction has no columns of its own, and is given their
//! source where it looks.

ghost use Rattle.std.specs.Prelude.{◌≡◌, ◌+◌, ◌/◌, ◌<◌, ◌≤◌, ◌^◌, ◌∷◌, ◌++◌, [], ℕ, true, All};
ghost use Rattle.std.specs.Prelude.{IfNone, IfOk, IfSome, Some, length, slice_set, vec_capacity};
ghost use Rattle.std.specs.List.{sum_by};
ghost use Rattle.kh_types.specs.Complex.{Complex as Plain, IsPivot, is_zero};
ghost use Rattle.kh_types.specs.History.{IsLegal, replay};
ghost use Rattle.prime_field.specs.Residues.{IsField};
ghost use Rattle.sparse_block.specs.Clearing.{with_dead};
ghost use Rattle.sparse_block.specs.Inside.{lists_in};
ghost use Rattle.sparse_block.specs.Complexes.{live_places};
ghost use Rattle.column_reduction.specs.UnderWay.{IsFound, IsReductionOf, history_of, pivot_of};

use crate::next_column::{first_from, fresh_table, next_left};
use crate::reducing::{Reduced, alive_at, all_alive, degree_at, kill};
use crate::stored_column::{StoredColumn, StoredColumns};
use kh_types::NoMemory;
use prime_field::PrimeField;
use prime_field::laws::element_laws;
use sparse_block::{ColumnSource, Complex, OwnedSource, Pivot};
use std::alloc::Global;

/// How far the columns of a complex have been reduced, and the pivots that were found, the first at
/// place 0.
#[derive(Drop)]
pub struct ColumnReduction {
    // Which places of each degree are alive.
    pub(crate) alive: Vec<Vec<bool>>,
    // The degree that is under way, by its number from the least one, the place of its next column,
    // and its reduced columns.
    pub(crate) number: usize,
    pub(crate) next: usize,
    pub(crate) stored: StoredColumns,
    pub(crate) history: Vec<Pivot>,
}

/// The next column that has a pivot, reduced, with a table of its own where it is the first of its
/// degree.
#[derive(Drop)]
pub struct FoundColumn {
    pub(crate) degree: i16,
    pub(crate) number: usize,
    pub(crate) line: StoredColumn,
    pub(crate) fresh: Option<StoredColumns>,
}

impl FoundColumn {
    /// The pivot.
    pub fn pivot(&self) -> Pivot
        ensures { result ≡ pivot_of self.now }
    {
        Pivot {
            degree: self.degree,
            column: self.line.column,
            row: self.line.row,
        }
    }
}

impl ColumnReduction {
    /// The reduction of a complex, of which no column is reduced yet.
    pub fn start<F: PrimeField, S: ColumnSource<F>>(
        alloc: Global,
        source: &S,
    ) -> Result<ColumnReduction, NoMemory>
        ensures reduction { IfOk result (IsReductionOf F.P (S.whole source.now).complex) }
        ensures none { IfOk result (λ made. history_of made ≡ []) }
    {
        element_laws::<F>();
        source.low();
        let alive = all_alive(alloc, source.names())?;
        let stored = fresh_table(alloc, alive_at(&alive, 1).len(), alive_at(&alive, 0).len())?;
        let history = Vec::with_capacity(alloc, place_sum(&alive) / 2)?;
        Ok(ColumnReduction {
            alive,
            number: 0,
            next: 0,
            stored,
            history,
        })
    }

    /// The length of the history.
    pub fn version(&self) -> u64
        ensures version { result ≡ length (history_of self.now) }
        ensures short { result < 2 ^ 63 }
    {
        self.history.len() as u64
    }

    /// The next column that has a pivot, which is an entry other than zero of what is left; `None`
    /// exactly where nothing is left. It changes nothing.
    pub fn look<F: PrimeField, S: ColumnSource<F>>(
        &self,
        alloc: Global,
        source: &mut S,
    ) -> Result<Option<FoundColumn>, NoMemory>
        requires { IsReductionOf F.P (S.whole source.old).complex self.now }
        ensures same { source.new ≡ source.old }
        ensures none { IfOk result (λ seen. IfNone seen (is_zero
            (replay F.P (S.whole source.old).complex (history_of self.now)) ≡ true)) }
        ensures open { IfOk result (λ seen. IfSome seen (λ _. ¬ (is_zero
            (replay F.P (S.whole source.old).complex (history_of self.now)) ≡ true))) }
        ensures found { IfOk result (λ seen. IfSome seen (IsFound F.P
            (S.whole source.old).complex (history_of self.now))) }
        ensures pivot { IfOk result (λ seen. IfSome seen (λ found. IsPivot
            (replay F.P (S.whole source.old).complex (history_of self.now)) (pivot_of found))) }
    {
        element_laws::<F>();
        let low = source.low();
        let k = self.number;
        let own = alive_at(&self.alive, k);
        let seen = next_left::<F, S>(source, &self.stored, k, own, self.next)?;
        match seen {
            Some(line) => Ok(Some(FoundColumn {
                degree: degree_at(low, k),
                number: k,
                line,
                fresh: None,
            })),
            None => first_from::<F, S>(alloc, source, &self.alive, k + 1),
        }
    }

    /// Takes a column that a look at the reduction as it is has found. It takes no memory.
    pub fn take(&mut self, found: FoundColumn)
        requires { (p : ℕ) × (complex : Plain) × IsField p × IsReductionOf p complex self.old
            × IsFound p complex (history_of self.old) found }
        ensures history { history_of self.new ≡ history_of self.old ++ pivot_of found ∷ [] }
        ensures reduction { (p : ℕ) → (complex : Plain) → IsField p
            → IsReductionOf p complex self.old → IsFound p complex (history_of self.old) found
            → IsReductionOf p complex self.new }
    {
        let pivot = found.pivot();
        let FoundColumn {
            number,
            line,
            fresh,
            ..
        } = found;
        renew(&mut self.stored, fresh);
        store_reserved(&mut self.stored, line);
        kill_pair(&mut self.alive, number, pivot);
        self.history.push_reserved(pivot);
        self.number = number;
        self.next = pivot.column as usize + 1;
    }

    /// What is left, and its pivots in the order in which they were found, where nothing is left to
    /// reduce.
    pub fn finish<F: PrimeField, S: OwnedSource<F>>(
        self,
        alloc: Global,
        source: S,
    ) -> Result<Reduced<F>, NoMemory>
        requires reduction { IsReductionOf F.P (S.whole source).complex self }
        requires zero { is_zero (replay F.P (S.whole source).complex (history_of self)) ≡ true }
        ensures pivots { IfOk result (λ made. made.pivots.items ≡ history_of self) }
        ensures legal { IfOk result (λ made.
            IsLegal F.P (S.whole source).complex made.pivots.items) }
        ensures left { IfOk result (λ made.
            made.complex.complex ≡ replay F.P (S.whole source).complex made.pivots.items) }
        ensures names { IfOk result (λ made. made.complex.names ≡ (S.whole source).names) }
        ensures room { IfOk result (λ made. length made.pivots.items
            + live_places made.complex.complex / 2 ≤ vec_capacity made.pivots) }
    {
        element_laws::<F>();
        let low = source.low();
        let ColumnReduction { alive, history, .. } = self;
        let complex = Complex::zero(alloc, low, source.into_names(), alive)?;
        Ok(Reduced {
            complex,
            pivots: history,
        })
    }
}

/// How many places all degrees have together.
fn place_sum(alive: &[Vec<bool>]) -> usize
    requires degrees { length alive.now < 2 ^ 16 }
    requires places { All (λ degree. length degree < 2 ^ 29) (lists_in alive.now) }
    ensures sum { result ≡ sum_by length (lists_in alive.now) }
    ensures few { result < 2 ^ 46 }
{
    let mut sum = 0;
    'degrees: for k in 0..alive.len() {
        sum += alive[k].len();
    }
    sum
}

/// Marks the places of a pivot dead, whose degree has number `k`.
fn kill_pair(alive: &mut Vec<Vec<bool>>, k: usize, pivot: Pivot)
    requires { k < 2 ^ 63 }
    ensures { lists_in alive.new.items
        ≡ with_dead (k + 1) pivot.row (with_dead k pivot.column (lists_in alive.old.items)) }
{
    kill(alive, k, pivot.column);
    kill(alive, k + 1, pivot.row);
}

/// Puts a fresh table, where there is one, in the place of another.
fn renew(stored: &mut StoredColumns, fresh: Option<StoredColumns>)
    ensures none { IfNone fresh (stored.new ≡ stored.old) }
    ensures some { IfSome fresh (λ table. stored.new ≡ table) }
{
    if let Some(table) = fresh {
        *stored = table;
    }
}

/// Stores a column that ends at a row, and makes it the row's owner. It takes no memory.
fn store_reserved(stored: &mut StoredColumns, line: StoredColumn)
    requires few { length stored.old.columns.items < 2 ^ 32 }
    requires room { length stored.old.columns.items < vec_capacity stored.old.columns }
    requires row { line.row < length stored.old.owners.items }
    ensures columns { stored.new.columns.items ≡ stored.old.columns.items ++ line ∷ [] }
    ensures room { vec_capacity stored.new.columns ≡ vec_capacity stored.old.columns }
    ensures owners { stored.new.owners.items
        ≡ slice_set stored.old.owners.items line.row (Some (length stored.old.columns.items)) }
{
    let number = stored.columns.len() as u32;
    stored.owners[line.row as usize] = Some(number);
    stored.columns.push_reserved(line);
}
