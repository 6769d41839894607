//! The Jones line of a diagram whose table is known: that of the table's graded Euler
//! characteristic, which asks for no state.

ghost use Rattle.std.specs.Prelude.{◌≡◌, IfOk};
ghost use Rattle.kh_types.specs.Table.{table};
ghost use Rattle.kh_runs.specs.Homology.{jones_line};

use crate::characteristic::euler;
use jones_sum::print_jones;
use kh_types::laws::diagrams::diagram_laws;
use kh_types::{Diagram, NoMemory};
use prime_field::FieldSize;
use std::alloc::Global;
use tangle_scan::ScanTable;

/// The Jones line of a diagram, from its table over a field. Source: Bar-Natan 2002, section 3.
pub fn jones_line_with(
    alloc: Global,
    field: FieldSize,
    diagram: &Diagram,
    scanned: &ScanTable,
) -> Result<Vec<u8>, NoMemory>
    requires { scanned.now ≡ table field diagram.now }
    ensures { IfOk result (λ text. text.items ≡ jones_line diagram.now) }
{
    // (what the type of a field's size keeps)
    let _ = field.elements();
    diagram_laws(diagram);
    Ok(print_jones(alloc, &euler(scanned))?)
}
