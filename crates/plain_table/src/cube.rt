//! The cube of a diagram, and its homology dimensions over a field.

ghost use Rattle.std.specs.Prelude.{◌≡◌, ◌<◌, ◌≤◌, length, map, pos, neg_ℤ, ◌≤ℤ◌, IfOk};
ghost use Rattle.kh_types.specs.Generators.{generators, generators_at};
ghost use Rattle.kh_types.specs.Differential.{differential};
ghost use Rattle.kh_types.specs.Rank.{rank};
ghost use Rattle.kh_types.specs.Table.{dimension};
ghost use Rattle.kh_types.specs.declared.limits.TheConstants.{CROSSINGS, EXPONENT};
ghost use Rattle.plain_table.specs.Matrices.{matrix_for, row_for, with_row};
ghost use Rattle.plain_table.specs.Placed.{placed_in};

use crate::coefficient::coefficient;
use crate::generators::{Generator, Placed, generators, generators_at};
use kh_types::{Diagram, NoMemory};
use plain_matrix::{Dense, matrix_laws, rank};
use prime_field::PrimeField;
use std::alloc::Global;

/// A diagram, and all generators of its cube with their degrees.
#[derive(Drop)]
pub struct Cube {
    diagram: Diagram,
    all: Vec<Placed>,
    ghost listed: { all.items ≡ map (placed_in diagram) (generators diagram) },
}

impl Cube {
    /// The cube of a diagram.
    pub fn new(alloc: Global, diagram: &Diagram) -> Result<Cube, NoMemory>
        ensures { IfOk result (λ cube. cube.diagram ≡ diagram.now) }
    {
        let all = generators(alloc, diagram)?;
        Ok(Cube {
            diagram: *diagram,
            all,
        })
    }

    /// The homology dimension at (i, j) over a field.
    #[tactic(auto, using(crate::proofs::TableLemmas::counting))]
    pub fn dimension<F: PrimeField>(&self, alloc: Global, i: i16, j: i16) -> Result<usize, NoMemory>
        requires low { neg_ℤ (pos EXPONENT) ≤ℤ i }
        requires high { i ≤ℤ pos EXPONENT }
        ensures { IfOk result (λ dim. dim ≡ dimension F.P self.now.diagram i j) }
    {
        let count = self.generators_at(alloc, i, j)?.len();
        let out = self.differential_rank::<F>(alloc, i, j)?;
        let into = self.differential_rank::<F>(alloc, i - 1, j)?;
        Ok(count.saturating_sub(out).saturating_sub(into))
    }

    /// The rank of the differential from degree i at j.
    fn differential_rank<F: PrimeField>(
        &self,
        alloc: Global,
        i: i16,
        j: i16,
    ) -> Result<usize, NoMemory>
        requires { i ≤ℤ pos EXPONENT }
        ensures { IfOk result (λ found.
            found ≡ rank F.P (differential F.P self.now.diagram i j)) }
    {
        let differential = self.differential::<F>(alloc, i, j)?;
        Ok(rank(alloc, &differential)? as usize)
    }

    /// The differential from degree i at j: a row for each generator of degree i + 1, with an entry
    /// for each of degree i.
    #[tactic(auto, using(crate::proofs::TableLemmas::matrices))]
    pub fn differential<F: PrimeField>(
        &self,
        alloc: Global,
        i: i16,
        j: i16,
    ) -> Result<Dense<F>, NoMemory>
        requires { i ≤ℤ pos EXPONENT }
        ensures rows { IfOk result (λ made. made.rows ≡ differential F.P self.now.diagram i j) }
        ensures columns { IfOk result (λ made.
            made.columns ≡ length (generators_at self.now.diagram i j)) }
    {
        let tails = self.generators_at(alloc, i, j)?;
        let heads = self.generators_at(alloc, i + 1, j)?;
        self.matrix(alloc, &tails, &heads)
    }

    /// The matrix with a row for each generator of one list, `heads`, and in it the coefficient
    /// from each generator of another.
    #[tactic(auto, using(crate::proofs::MatrixLemmas::rows))]
    fn matrix<F: PrimeField>(
        &self,
        alloc: Global,
        tails: &[Placed],
        heads: &[Placed],
    ) -> Result<Dense<F>, NoMemory>
        ensures { IfOk result (λ made.
            made ≡ matrix_for F.P self.now.diagram tails.now heads.now) }
    {
        let rows = matrix_size(heads)?;
        let mut made = Dense::zero(alloc, rows, matrix_size(tails)?)?;
        'rows: for row in 0..rows {
            self.put_row(&mut made, row, tails, heads[row as usize].generator);
        }
        Ok(made)
    }

    /// Puts the coefficients from each generator of a list to one generator into a row of a matrix.
    #[tactic(auto, using(crate::proofs::MatrixLemmas::entries))]
    fn put_row<F: PrimeField>(
        &self,
        made: &mut Dense<F>,
        row: u32,
        tails: &[Placed],
        head: Generator,
    )
        requires row { row < length made.old.rows }
        requires columns { made.old.columns ≡ length tails.now }
        ensures { made.new
            ≡ with_row made.old row (row_for F.P self.now.diagram tails.now head) }
    {
        matrix_laws(made);
        'columns: for column in 0..made.columns() {
            let tail = tails[column as usize].generator;
            made.set(row, column, coefficient(&self.diagram, tail, head));
        }
    }

    /// The generators of the degrees i and j, by state, then by label.
    #[tactic(auto, using(crate::proofs::TableLemmas::placing))]
    pub fn generators_at(&self, alloc: Global, i: i16, j: i16) -> Result<Vec<Placed>, NoMemory>
        ensures { let code = self.now.diagram in
            IfOk result (λ made. made.items ≡ map (placed_in code) (generators_at code i j)) }
    {
        Ok(generators_at(alloc, &self.all, i, j)?)
    }

    /// The number of crossings of the diagram.
    pub fn crossing_count(&self) -> usize
        ensures count { result ≡ length self.now.diagram.crossings }
        ensures fits { result ≤ CROSSINGS }
    {
        usize::from(self.diagram.count())
    }
}

/// How many rows or columns a matrix has for a list of generators. Matrices have fewer than 2^32,
/// so a longer list, which takes 96 GiB by itself, is answered as out of memory.
fn matrix_size(generators: &[Placed]) -> Result<u32, NoMemory>
    ensures { IfOk result (λ size. size ≡ length generators.now) }
{
    match u32::try_from(generators.len()) {
        Ok(size) => Ok(size),
        Err(_) => Err(NoMemory),
    }
}
