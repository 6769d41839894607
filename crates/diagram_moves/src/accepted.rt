//! Codes that are known to be accepted.

ghost use Rattle.std.specs.Prelude.{◌≡◌, IsTrue};
ghost use Rattle.kh_types.specs.Acceptance.{accepted};
ghost use Rattle.orient_arcs.specs.Renumbered.{renumber};
ghost use Rattle.diagram_moves.specs.Joinable.{AreReady};

use kh_types::{Diagram, RawCode};
use orient_arcs::{Parts, renumber};

/// The diagram of an accepted code.
pub(crate) fn accepted(raw: &RawCode) -> Diagram
    requires { IsTrue (accepted raw.now) }
    ensures { result ≡ raw.now }
{
    Diagram::of_accepted(raw)
}

/// The diagram of crossings over names, whose code is accepted.
pub(crate) fn renumbered(parts: &Parts) -> Diagram
    requires { AreReady parts.now }
    ensures { result ≡ renumber parts.now }
{
    accepted(&renumber(parts))
}
