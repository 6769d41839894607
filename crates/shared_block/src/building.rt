//! How a block is made: that of the cube with room for its history, or cancelled at once.

ghost use Rattle.std.specs.Prelude.{◌≡◌, ◌+◌, ◌*◌, ◌<◌, ◌≤◌, ◌^◌, [], pos, ◌+ℤ◌, length, IfOk};
ghost use Rattle.std.specs.List.{Contains};
ghost use Rattle.circle_smoothing.specs.GeneratorCounts.{generator_count};
ghost use Rattle.circle_smoothing.specs.declared.limits.TheConstants.{GENERATORS};
ghost use Rattle.cube_signs.specs.Blocks.{block_degrees};
ghost use Rattle.sparse_block.specs.Complexes.{live_places};
ghost use Rattle.shared_block.specs.AllBlocks.{IsFinished};
ghost use Rattle.shared_block.specs.BlockHistories.{block_with};

use crate::SharedBlock;
use column_reduction::{Reduced, reduce};
use cube_signs::Cube;
use kh_types::laws::diagrams::diagram_laws;
use kh_types::{Diagram, NoMemory};
use prime_field::PrimeField;
use prime_field::laws::element_laws;
use sparse_block::{Complex, complex_laws};
use std::alloc::Global;

impl<F: PrimeField> SharedBlock<F> {
    /// The block of a diagram at a quantum degree that has a generator. Its history is empty, and
    /// has room for half as many pivots as the block has generators, rounded down.
    pub fn build(alloc: Global, diagram: &Diagram, j: i16) -> Result<SharedBlock<F>, NoMemory>
        requires size { generator_count diagram.now ≤ GENERATORS }
        requires degree { Contains (block_degrees diagram.now) j }
        ensures { IfOk result (λ made. made ≡ block_with diagram.now j []) }
    {
        let cube = Cube::new(alloc, diagram)?;
        SharedBlock::of_cube(alloc, &cube, j)
    }

    /// The same, of a cube that several blocks share.
    pub fn of_cube(alloc: Global, cube: &Cube, j: i16) -> Result<SharedBlock<F>, NoMemory>
        requires { Contains (block_degrees cube.now) j }
        ensures { IfOk result (λ made. made ≡ block_with cube.now j []) }
    {
        element_laws::<F>();
        let diagram = *cube.diagram();
        diagram_laws(&diagram);
        let complex = cube.block::<F>(alloc, j)?;
        let history = Vec::with_capacity(alloc, live_places(&complex) / 2)?;
        Ok(SharedBlock {
            diagram,
            degree: j,
            history,
            complex,
        })
    }

    /// The block of a cube at a quantum degree, cancelled to zero by column reduction.
    pub fn finished(alloc: Global, cube: &Cube, j: i16) -> Result<SharedBlock<F>, NoMemory>
        requires { Contains (block_degrees cube.now) j }
        ensures diagram { IfOk result (λ made. made.diagram ≡ cube.now) }
        ensures degree { IfOk result (λ made. made.degree ≡ j) }
        ensures zero { IfOk result (IsFinished F.P) }
    {
        element_laws::<F>();
        let diagram = *cube.diagram();
        diagram_laws(&diagram);
        let Reduced { complex, pivots } = reduce(alloc, cube.opening_block::<F>(alloc, j)?)?;
        let mut history = pivots;
        history.reserve(live_places(&complex) / 2)?;
        Ok(SharedBlock {
            diagram,
            degree: j,
            history,
            complex,
        })
    }
}

/// How many places of a complex are alive.
#[tactic(auto, using(crate::proofs::PlaceSums::places))]
pub(crate) fn live_places<F: PrimeField>(complex: &Complex<F>) -> usize
    ensures places { result ≡ live_places complex.now.complex }
    ensures few { result < 2 ^ 63 }
{
    let mut sum = 0;
    'degrees: for k in 0..degree_count(complex) {
        sum += complex.alive(degree(complex, k)) as usize;
    }
    sum
}

/// The number of degrees.
fn degree_count<F: PrimeField>(complex: &Complex<F>) -> usize
    ensures count { result ≡ length complex.now.complex.degrees }
    ensures few { result < 2 ^ 16 }
{
    complex_laws(complex);
    (i32::from(complex.high()) - i32::from(complex.low()) + 1) as usize
}

/// A degree, counted from the least.
fn degree<F: PrimeField>(complex: &Complex<F>, k: usize) -> i16
    requires { k < length complex.now.complex.degrees }
    ensures { result ≡ complex.now.complex.low +ℤ pos k }
{
    complex_laws(complex);
    (i32::from(complex.low()) + k as i32) as i16
}
