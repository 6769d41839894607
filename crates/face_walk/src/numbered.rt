//! The faces of a diagram.

ghost use Rattle.std.specs.Prelude.{◌≡◌, ◌<◌, ◌≤◌, length, nat_eq};
ghost use Rattle.std.specs.List.{count_by};
ghost use Rattle.kh_types.specs.Darts.{IsDart};
ghost use Rattle.kh_types.specs.Faces.{face_count, planar_face_count};
ghost use Rattle.face_walk.specs.FaceNumbers.{face_number, face_length};

use arrayvec::ArrayVec;
use kh_types::{CLASS_MEMBERS, Dart, Diagram, dart_place};
use std::marker::Model;

/// The faces of a diagram, numbered from 0 by their least darts, crossing first, then slot. A face
/// is a cycle of darts, each followed by the one before the other end of its arc; loops count for
/// none. Contracts see them as the `Code` of the diagram.
#[derive(Debug, Drop)]
pub struct Faces {
    pub(crate) diagram: Diagram,
    pub(crate) numbers: ArrayVec<u8, CLASS_MEMBERS>,
    pub(crate) count: u8,
}

impl Model for Faces {
    ghost use Rattle.kh_types.specs.Code.{Code};

    ghost Value = { Code };

    ghost use Rattle.face_walk.specs.Numbered.{code_of_faces, AreNumberedFaces};

    ghost view = { code_of_faces };

    ghost invariant = { AreNumberedFaces };
}

impl Faces {
    /// The number of faces, which is n + 2k for n crossings in k connected pieces.
    #[tactic(auto, using(crate::proofs::FewFaces::sphere_faces))]
    pub fn count(&self) -> u8
        ensures count { result ≡ face_count self.now.crossings }
        ensures sphere { result ≡ planar_face_count self.now.crossings }
    {
        self.count
    }

    /// The face that a dart of the diagram is of.
    #[tactic(auto, using(crate::proofs::FaceLemmas::numbers, crate::proofs::FaceLemmas::places))]
    pub fn face_of(&self, dart: Dart) -> u8
        requires { IsDart self.now.crossings dart }
        ensures face { result ≡ face_number self.now.crossings dart }
        ensures below { result < face_count self.now.crossings }
    {
        self.numbers[dart_place(dart) as usize]
    }

    /// The length of a face: how many darts it has.
    #[tactic(auto, using(crate::proofs::FaceLemmas::numbers))]
    pub fn length(&self, face: u8) -> u8
        requires { face < face_count self.now.crossings }
        ensures { result ≡ face_length self.now.crossings face }
    {
        times(&self.numbers, face) as u8
    }
}

/// How often a number stands in a list.
fn times(numbers: &[u8], number: u8) -> usize
    ensures times { result ≡ count_by (λ x. nat_eq x number) numbers.now }
    ensures within { result ≤ length numbers.now }
{
    numbers.iter().filter(|x| **x == number).count()
}
