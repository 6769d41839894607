//! The reduced homology table of a diagram.

ghost use Rattle.std.specs.Prelude.{◌≡◌, ℤ, pos, ◌+ℤ◌, ◌-ℤ◌, ◌≤◌, true, IfErr, IfOk, IsOk};
ghost use Rattle.kh_types.specs.CircleNumbers.{IsName};
ghost use Rattle.kh_types.specs.StateSum.{euler, state_sum};
ghost use Rattle.circle_smoothing.specs.GeneratorCounts.{generator_count};
ghost use Rattle.circle_smoothing.specs.declared.limits.TheConstants.{GENERATORS};
ghost use Rattle.reduced_cube.specs.Reduced.{is_mark, reduced_table};
ghost use Rattle.reduced_cube.specs.Stops.{IsReducedStop};

use crate::marked_cube::MarkedCube;
use crate::marks::is_mark;
use crate::stop::ReducedStop;
use cube_signs::check_size;
use homology_tables::Table;
use kh_types::laws::diagrams::diagram_laws;
use kh_types::{Diagram, NoMemory};
use prime_field::PrimeField;
use prime_field::laws::element_laws;
use std::alloc::Global;

/// The reduced homology table of a diagram at a marked arc or loop. One block is in memory at a
/// time. Source: Khovanov 2003, section 3.
pub fn reduced_table<F: PrimeField>(
    alloc: Global,
    diagram: &Diagram,
    mark: u8,
) -> Result<Table, ReducedStop>
    ensures table { IfOk result (λ made. made ≡ reduced_table F.P diagram.now mark) }
    ensures euler { IfOk result (λ made. (e : ℤ) → euler made (e -ℤ pos 1)
        +ℤ euler made (e +ℤ pos 1) ≡ state_sum diagram.now e) }
    ensures mark { IsOk result → is_mark diagram.now mark ≡ true }
    ensures size { IsOk result → generator_count diagram.now ≤ GENERATORS }
    ensures stop { IfErr result (IsReducedStop diagram.now mark) }
{
    element_laws::<F>();
    diagram_laws(diagram);
    if !is_mark(diagram, mark) {
        return Err(ReducedStop::Mark { arc: mark });
    }
    if let Err(limit) = check_size(diagram) {
        return Err(ReducedStop::SizeLimit {
            generators: limit.generators,
        });
    }
    match table_of::<F>(alloc, diagram, mark) {
        Ok(table) => Ok(table),
        Err(NoMemory) => Err(ReducedStop::NoMemory),
    }
}

/// The table at a mark, of a diagram within the limit on generators.
fn table_of<F: PrimeField>(alloc: Global, diagram: &Diagram, mark: u8) -> Result<Table, NoMemory>
    requires mark { IsName diagram.now mark }
    requires size { generator_count diagram.now ≤ GENERATORS }
    ensures { IfOk result (λ made. made ≡ reduced_table F.P diagram.now mark) }
{
    let cube = MarkedCube::new(alloc, diagram, mark)?;
    let degrees = cube.degrees(alloc)?;
    let mut rows = Vec::new(alloc);
    'degrees: for k in 0..degrees.len() {
        cube.push_block::<F>(alloc, &mut rows, degrees[k])?;
    }
    Ok(cube.whole_table::<F>(rows))
}
