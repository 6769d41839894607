//! How the faces of a diagram are numbered.

ghost use Rattle.std.specs.Prelude.{◌≡◌};

use crate::class_numbers::class_numbers;
use crate::numbered::Faces;
use crate::walk::faces_of;
use kh_types::{Diagram, class_count};

/// The faces of a diagram.
pub fn faces(diagram: &Diagram) -> Faces
    ensures { result ≡ diagram.now }
{
    let classes = faces_of(diagram);
    Faces {
        diagram: *diagram,
        numbers: class_numbers(&classes),
        count: class_count(&classes) as u8,
    }
}
