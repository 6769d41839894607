//! What the type of a diagram keeps.

ghost use Rattle.std.specs.Prelude.{◌≤◌, length, IsTrue};
ghost use Rattle.kh_types.specs.declared.limits.TheConstants.{CROSSINGS, COMPONENTS};
ghost use Rattle.kh_types.specs.Acceptance.{accepted};

use crate::Diagram;

/// What the type of a diagram keeps. It does nothing: a function calls it, and its proof then has
/// these facts at hand.
pub fn diagram_laws(diagram: &Diagram)
    ensures accepted { IsTrue (accepted diagram.now) }
    ensures few { length diagram.now.crossings ≤ CROSSINGS }
    ensures few_loops { diagram.now.loops ≤ COMPONENTS }
{
    let _ = diagram.crossings();
    let _ = diagram.loops();
}
