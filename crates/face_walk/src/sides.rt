//! The faces at the two sides of an arc.

ghost use Rattle.std.specs.Prelude.{◌≡◌, ◌<◌};
ghost use Rattle.kh_types.specs.Code.{IsArc};
ghost use Rattle.kh_types.specs.Faces.{face_count};
ghost use Rattle.face_walk.specs.FaceNumbers.{left_face, right_face};

use crate::finding::faces;
use kh_types::Diagram;

/// The face at the left of an arc, 1 to twice the number of crossings: that of its tail, by which
/// it leaves a crossing.
pub fn left_of(diagram: &Diagram, arc: u8) -> u8
    requires { IsArc diagram.now.crossings arc }
    ensures face { result ≡ left_face diagram.now.crossings arc }
    ensures below { result < face_count diagram.now.crossings }
{
    faces(diagram).face_of(diagram.tail(arc))
}

/// The face at the right of an arc, 1 to twice the number of crossings: that of its head, by which
/// it enters a crossing.
pub fn right_of(diagram: &Diagram, arc: u8) -> u8
    requires { IsArc diagram.now.crossings arc }
    ensures face { result ≡ right_face diagram.now.crossings arc }
    ensures below { result < face_count diagram.now.crossings }
{
    faces(diagram).face_of(diagram.head(arc))
}
