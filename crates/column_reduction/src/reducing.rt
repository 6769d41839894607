//! Column reduction of a whole complex: of each degree the columns in order, and of each column the
//! last entry. Degrees are reduced from the least up, so that a row that is the last of a column is
//! dead when its own column's turn comes; most columns that would be reduced to nothing are passed
//! over so (clearing; Chen and Kerber 2011). Pivots are listed from the greatest degree down. That
//! searches find them in this order tests show, and no clause says.

ghost use Rattle.std.specs.Prelude.{◌≡◌, ◌<◌, ◌^◌, [], ◌∷◌, ◌++◌, true, pos, ◌+ℤ◌, ◌≤ℤ◌, IfOk, OnOk};
ghost use Rattle.std.specs.Prelude.{slice_index_or};
ghost use Rattle.kh_types.specs.Complex.{is_zero};
ghost use Rattle.kh_types.specs.History.{IsLegal, replay};
ghost use Rattle.sparse_block.specs.Clearing.{with_dead};
ghost use Rattle.sparse_block.specs.Complexes.{all_alive};
ghost use Rattle.sparse_block.specs.Inside.{lists_in};
ghost use Rattle.column_reduction.specs.Reductions.{IsReducedComplex};
ghost use Rattle.column_reduction.specs.StoredColumns.{alive_in, from_greatest, pivots_in};
ghost use Rattle.column_reduction.specs.StoredColumns.{stored_pivots, with_pairs};

use crate::reduced_column::Scratch;
use crate::reduced_degree::reduce_degree;
use crate::stored_column::StoredColumn;
use kh_types::NoMemory;
use prime_field::PrimeField;
use prime_field::laws::element_laws;
use sparse_block::{ColumnSource, Complex, Generator, OwnedSource, Pivot};
use std::alloc::Global;

/// What `reduce` makes of a complex: the complex that is left, and the pivots that leave it, the
/// first at place 0.
#[derive(Drop)]
pub struct Reduced<F: PrimeField> {
    pub complex: Complex<F>,
    pub pivots: Vec<Pivot>,
}

/// Reduces the columns of a complex until it is zero. Pivots are listed from the greatest degree
/// down, those of each degree in the order of their columns; no other list is one of a reduction.
pub fn reduce<F: PrimeField, S: OwnedSource<F>>(
    alloc: Global,
    source: S,
) -> Result<Reduced<F>, NoMemory>
    ensures reduced { IfOk result (λ made. IsReducedComplex F.P (S.whole source).complex
        made.pivots.items made.complex.complex) }
    ensures legal { IfOk result (λ made. IsLegal F.P (S.whole source).complex made.pivots.items) }
    ensures left { IfOk result (λ made.
        made.complex.complex ≡ replay F.P (S.whole source).complex made.pivots.items) }
    ensures zero { IfOk result (λ made. is_zero made.complex.complex ≡ true) }
    ensures names { IfOk result (λ made. made.complex.names ≡ (S.whole source).names) }
{
    element_laws::<F>();
    let mut source = source;
    let low = source.low();
    let Reduction { alive, pivots } = reduce_columns::<F, S>(alloc, &mut source)?;
    let pivots = all_pivots(alloc, pivots)?;
    let complex = Complex::zero(alloc, low, source.into_names(), alive)?;
    Ok(Reduced { complex, pivots })
}

/// What column reduction leaves of a complex: which places of each degree are alive, and the
/// pivots of each degree.
#[derive(Drop)]
struct Reduction {
    alive: Vec<Vec<bool>>,
    pivots: Vec<Vec<Pivot>>,
}

/// Reduces a complex: which places are alive then, and the pivots of each degree from the least on.
fn reduce_columns<F: PrimeField, S: ColumnSource<F>>(
    alloc: Global,
    source: &mut S,
) -> Result<Reduction, NoMemory>
    ensures same { source.new ≡ source.old }
    ensures reduced { IfOk result (λ made. IsReducedComplex F.P (S.whole source.old).complex
        (from_greatest (pivots_in made.pivots.items)) (replay F.P (S.whole source.old).complex
        (from_greatest (pivots_in made.pivots.items)))) }
    ensures alive { IfOk result (λ made. lists_in made.alive.items ≡ alive_in
        (replay F.P (S.whole source.old).complex (from_greatest (pivots_in made.pivots.items)))) }
{
    element_laws::<F>();
    let low = source.low();
    let alive = all_alive(alloc, source.names())?;
    let count = alive.len();
    let mut made = Reduction {
        alive,
        pivots: Vec::with_capacity(alloc, count)?,
    };
    let mut scratch = Scratch::new(alloc);
    'degrees: for k in 0..count {
        let height = alive_at(&made.alive, k + 1).len();
        let stored = reduce_degree::<F, S>(
            source,
            &mut scratch,
            k,
            height,
            alive_at(&made.alive, k),
        )?;
        note_pivots(&mut made, degree_at(low, k), k, &stored)?;
    }
    Ok(made)
}

/// One list of all pivots, those of the greatest degree first.
fn all_pivots(alloc: Global, pivots: Vec<Vec<Pivot>>) -> Result<Vec<Pivot>, NoMemory>
    ensures { IfOk result (λ made. made.items ≡ from_greatest (pivots_in pivots.items)) }
{
    let mut made = Vec::new(alloc);
    let mut rest = pivots;
    'degrees: while let Some(degree) = rest.pop() {
        made.extend_from_slice(&degree)?;
    }
    Ok(made)
}

/// Marks every place alive.
pub(crate) fn all_alive(alloc: Global, names: &[Vec<Generator>]) -> Result<Vec<Vec<bool>>, NoMemory>
    ensures { IfOk result (λ made. lists_in made.items ≡ all_alive (lists_in names.now)) }
{
    let mut made = Vec::with_capacity(alloc, names.len())?;
    'degrees: for degree in names {
        made.push(vec![in alloc; true; degree.len()]?)?;
    }
    Ok(made)
}

/// The degree of number `k` from the least one on.
pub(crate) fn degree_at(low: i16, k: usize) -> i16
    requires { (low +ℤ pos k) ≤ℤ pos 32767 }
    ensures { result ≡ low +ℤ pos k }
{
    (i32::from(low) + k as i32) as i16
}

/// Which places of degree number `k` are alive; none is past the last degree.
pub(crate) fn alive_at(alive: &[Vec<bool>], k: usize) -> &[bool]
    ensures { result.now ≡ slice_index_or (lists_in alive.now) k [] }
{
    match alive.get(k) {
        Some(degree) => degree.as_slice(),
        None => &[],
    }
}

/// Notes the pivots of the reduced columns of degree number `k`, and marks their places dead.
fn note_pivots(
    made: &mut Reduction,
    degree: i16,
    k: usize,
    stored: &[StoredColumn],
) -> Result<(), NoMemory>
    requires { k < 2 ^ 16 }
    ensures pivots { OnOk result (pivots_in made.new.pivots.items
        ≡ pivots_in made.old.pivots.items ++ stored_pivots degree stored.now ∷ []) }
    ensures alive { OnOk result (lists_in made.new.alive.items
        ≡ with_pairs k (lists_in made.old.alive.items) stored.now) }
{
    let mut pivots = Vec::with_capacity(*made.pivots.allocator(), stored.len())?;
    'columns: for line in stored {
        pivots.push(Pivot {
            degree,
            column: line.column,
            row: line.row,
        })?;
        kill(&mut made.alive, k, line.column);
        kill(&mut made.alive, k + 1, line.row);
    }
    made.pivots.push(pivots)?;
    Ok(())
}

/// Marks a place of degree number `k` dead, where there is one.
pub(crate) fn kill(alive: &mut [Vec<bool>], k: usize, place: u32)
    ensures { lists_in alive.new ≡ with_dead k place (lists_in alive.old) }
{
    if k >= alive.len() || place as usize >= alive[k].len() {
        return;
    }
    alive[k][place as usize] = false;
}
