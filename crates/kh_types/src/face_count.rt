//! The faces of a code, counted.

ghost use Rattle.std.specs.Prelude.{◌≡◌};
ghost use Rattle.kh_types.specs.Faces.{face_count, planar_face_count};

use crate::acceptance::{face_count, planar_face_count};
use crate::code::RawCode;

/// How many faces a code has, and how many a drawing on the sphere has: n + 2k for n crossings in k
/// connected pieces.
#[derive(Clone, Copy, Debug, PartialEq, Eq)]
pub struct FaceCount {
    /// The number of faces.
    pub faces: u8,
    /// The number of faces of a drawing on the sphere, n + 2k.
    pub wanted: u8,
}

/// The faces of a code. Loops count for none. Where each of the arcs 1 to 2n stands exactly twice,
/// a face is a cycle of darts, each followed by the one before the other end of its arc; of any
/// other code the numbers mean nothing.
pub fn count_faces(raw: &RawCode) -> FaceCount
    ensures faces { result.faces ≡ face_count raw.now.crossings }
    ensures wanted { result.wanted ≡ planar_face_count raw.now.crossings }
{
    FaceCount {
        faces: face_count(&raw.crossings),
        wanted: planar_face_count(&raw.crossings),
    }
}
