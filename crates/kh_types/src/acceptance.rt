//! Which codes are accepted: the nine rules, and the signs of crossings.

ghost use Rattle.std.specs.Prelude.{◌≡◌};
ghost use Rattle.kh_types.specs.Acceptance.{first_fault};

mod arcs;
mod checkerboard;
mod components;
pub(crate) mod darts;
mod directed;
mod faces;
mod faults;
pub(crate) mod heads;
mod signs;

use crate::code::RawCode;
use crate::fault::CodeFault;
use checkerboard::checkerboard_fault;
pub use components::{arcs_in, components_of, next_in};
use directed::{components_fault, direction_fault};
use faces::genus_fault;
pub(crate) use faces::{face_count, planar_face_count};
pub(crate) use signs::{is_positive, plus_count, signs};

/// The first rule that a code breaks.
#[tactic(auto, unfolding(crate::specs::Acceptance::first_fault))]
pub(crate) fn first_fault(raw: &RawCode) -> Option<CodeFault>
    ensures { result ≡ first_fault raw.now }
{
    let components = components_of(&raw.crossings);
    direction_fault(&raw.crossings, &components)
        .or_else(|| checkerboard_fault(&raw.crossings))
        .or_else(|| genus_fault(&raw.crossings))
        .or_else(|| components_fault(raw, &components))
}
