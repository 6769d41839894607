//! The blocks of the reduced cube.

ghost use Rattle.std.specs.Prelude.{◌≡◌, ◌≤◌, IfOk};
ghost use Rattle.std.specs.List.{Contains};
ghost use Rattle.kh_types.specs.CircleNumbers.{IsName};
ghost use Rattle.circle_smoothing.specs.GeneratorCounts.{generator_count};
ghost use Rattle.circle_smoothing.specs.declared.limits.TheConstants.{GENERATORS};
ghost use Rattle.reduced_cube.specs.Reduced.{reduced_block, reduced_degrees};

use crate::marked_cube::MarkedCube;
use kh_types::{Diagram, NoMemory};
use prime_field::PrimeField;
use sparse_block::Complex;
use std::alloc::Global;

/// The block of the reduced cube at a mark and a reduced quantum degree, with the homological
/// degrees from -n to n where there are n crossings. Source: Khovanov 2003, section 3; the shift by
/// 1 and the empty degrees are this project's rule.
pub fn reduced_columns<F: PrimeField>(
    alloc: Global,
    diagram: &Diagram,
    mark: u8,
    j: i16,
) -> Result<Complex<F>, NoMemory>
    requires mark { IsName diagram.now mark }
    requires size { generator_count diagram.now ≤ GENERATORS }
    requires degree { Contains (reduced_degrees diagram.now mark) j }
    ensures { IfOk result (λ made. made ≡ reduced_block F.P diagram.now mark j) }
{
    let cube = MarkedCube::new(alloc, diagram, mark)?;
    cube.block(alloc, j)
}
