//! The generators of a block, by degree, and where those of each state begin.

ghost use Rattle.std.specs.Prelude.{◌≡◌, ◌^◌, ◌<◌, ◌≤◌, ◌++◌, length, map, nat_lt};
ghost use Rattle.std.specs.Prelude.{pos, ◌+ℤ◌, ◌≤ℤ◌, neg_ℤ, IfOk, OnOk, IsTrue};
ghost use Rattle.std.specs.List.{filter};
ghost use Rattle.std.specs.List.Sorted.{IsNonDecreasing};
ghost use Rattle.kh_types.specs.Acceptance.{accepted};
ghost use Rattle.kh_types.specs.Generators.{generator_of, generators_at, states};
ghost use Rattle.kh_types.specs.declared.limits.TheConstants.{CROSSINGS};
ghost use Rattle.circle_smoothing.specs.GeneratorCounts.{generator_count};
ghost use Rattle.circle_smoothing.specs.declared.limits.TheConstants.{GENERATORS};
ghost use Rattle.cube_signs.specs.Shapes.{shape_of};
ghost use Rattle.cube_signs.specs.Tables.{state_generators, AreLabels, IsWeight};
ghost use Rattle.cube_signs.specs.declared.limits.TheConstants.{DEGREES, WIDTH};

use crate::cube::Cube;
use crate::shape::Shape;
use kh_types::NoMemory;
use sparse_block::Generator;
use std::alloc::Global;

/// A homological degree i and a quantum degree j.
#[derive(Clone, Copy)]
pub struct Degrees {
    pub i: i16,
    pub j: i16,
}

impl Degrees {
    /// The homological degree that is a distance above, and the same quantum degree.
    pub fn above(self, distance: usize) -> Degrees
        requires low { neg_ℤ (pos DEGREES) ≤ℤ self.i }
        requires high { (self.i +ℤ pos distance) ≤ℤ pos DEGREES }
        ensures i { result.i ≡ self.i +ℤ pos distance }
        ensures j { result.j ≡ self.j }
    {
        Degrees {
            i: self.i + distance as i16,
            j: self.j,
        }
    }

    /// The next homological degree, and the same quantum degree.
    pub fn next(self) -> Degrees
        requires { self.i ≤ℤ pos DEGREES }
        ensures i { result.i ≡ self.i +ℤ pos 1 }
        ensures j { result.j ≡ self.j }
    {
        Degrees {
            i: self.i + 1,
            j: self.j,
        }
    }
}

impl Cube {
    /// The generators of two degrees; room for `room` of them is made at once.
    pub(crate) fn names(
        &self,
        alloc: Global,
        at: Degrees,
        room: usize,
    ) -> Result<Vec<Generator>, NoMemory>
        ensures { IfOk result (λ names. names.items ≡ generators_at self.now at.i at.j) }
    {
        let states = self.states_at(at);
        let mut names = Vec::with_capacity(alloc, room)?;
        'states: for k in 0..states.len() {
            self.push_names(&mut names, states[k], at)?;
        }
        Ok(names)
    }

    /// Adds the generators of the two degrees that a state has.
    fn push_names(
        &self,
        names: &mut Vec<Generator>,
        state: u32,
        at: Degrees,
    ) -> Result<(), NoMemory>
        requires { state < 2 ^ length self.now.crossings }
        ensures { OnOk result (names.new.items
            ≡ names.old.items ++ state_generators self.now at.i at.j state) }
    {
        push_labels(names, state, self.labels(state as usize, at))
    }

    /// How many generators of two degrees a state has.
    pub(crate) fn count(&self, state: usize, at: Degrees) -> usize
        requires { state < 2 ^ length self.now.crossings }
        ensures { result ≡ length (state_generators self.now at.i at.j state) }
    {
        self.labels(state, at).len()
    }

    /// The labels of the generators of two degrees that a state has, ascending.
    fn labels(&self, state: usize, at: Degrees) -> &[u32]
        requires { state < 2 ^ length self.now.crossings }
        ensures { map (generator_of state) result.now ≡ state_generators self.now at.i at.j state }
    {
        let shape = self.shape(state);
        match self.weight(state, at) {
            Some(weight) => first_labels(self.labels_with(weight), shape.circles),
            None => &[],
        }
    }

    /// How many labels v- the generators of two degrees have that a state has, if any
    /// number gives these degrees.
    fn weight(&self, state: usize, at: Degrees) -> Option<u16>
        requires { state < 2 ^ length self.now.crossings }
        ensures { IsWeight self.now at.i at.j state result }
    {
        let shape = self.shape(state);
        if i16::from(shape.ones) - i16::from(self.minus) == at.i {
            shape.weight(at.j)
        } else {
            None
        }
    }

    /// How many states there are.
    pub(crate) fn state_count(&self) -> usize
        ensures count { result ≡ 2 ^ length self.now.crossings }
        ensures few { result ≤ 2 ^ CROSSINGS }
        ensures size { generator_count self.now ≤ GENERATORS }
        ensures code { IsTrue (accepted self.now) }
    {
        self.shapes.len()
    }

    /// The labels with this many v-, of as many circles as any state has.
    fn labels_with(&self, weight: u16) -> &[u32]
        ensures { AreLabels self.now weight result.now }
    {
        let weight = usize::from(weight);
        if weight < self.labels.len() {
            &self.labels[weight]
        } else {
            &[]
        }
    }

    /// The shape of a state.
    pub(crate) fn shape(&self, state: usize) -> Shape
        requires { state < 2 ^ length self.now.crossings }
        ensures shape { result ≡ shape_of self.now state }
        ensures few { result.circles ≤ WIDTH }
    {
        self.shapes[state]
    }
}

/// Adds the generators of a state with these labels.
fn push_labels(names: &mut Vec<Generator>, state: u32, labels: &[u32]) -> Result<(), NoMemory>
    ensures { OnOk result (names.new.items
        ≡ names.old.items ++ map (generator_of state) labels.now) }
{
    'labels: for k in 0..labels.len() {
        let label = u64::from(labels[k]);
        names.push(Generator { state, label })?;
    }
    Ok(())
}

/// The labels of some circles, which are the first of those of more circles.
fn first_labels(labels: &[u32], circles: u8) -> &[u32]
    requires circles { circles ≤ WIDTH }
    requires ascending { IsNonDecreasing labels.now }
    ensures { result.now ≡ filter (λ label. nat_lt label (2 ^ circles)) labels.now }
{
    let end = 1u32 << circles;
    &labels[..labels.partition_point(|label| *label < end)]
}
