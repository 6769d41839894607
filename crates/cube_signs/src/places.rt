//! Where the generators of a block stand: one pass over all states finds how many generators of
//! each degree the states before each one have.

ghost use Rattle.std.specs.Prelude.{◌≡◌, ◌^◌, ◌<◌, length, map, ◌≤◌, All, IfOk};
ghost use Rattle.kh_types.specs.Generators.{generators_at, one_count, states};
ghost use Rattle.kh_types.specs.declared.limits.TheConstants.{CROSSINGS};
ghost use Rattle.cube_signs.specs.Tables.{own_base, own_degree, HaveSizes};
ghost use Rattle.cube_signs.specs.declared.limits.TheConstants.{PLACES};

use crate::cube::Cube;
use crate::names::Degrees;
use kh_types::{CROSSINGS, NoMemory};
use std::alloc::Global;

/// The numbers of ones that a state can have: from 0 to CROSSINGS.
pub const LEVELS: usize = CROSSINGS + 1;

/// Where the generators of each state begin among those of their degrees, and how many generators
/// there are, by the ones of their states.
#[derive(Drop)]
pub struct Places {
    pub bases: Vec<u32>,
    pub sizes: [usize; LEVELS],
}

impl Cube {
    /// The places of the generators of a quantum degree.
    pub(crate) fn places(&self, alloc: Global, j: i16) -> Result<Places, NoMemory>
        ensures bases { IfOk result (λ places.
            places.bases.items ≡ map (own_base self.now j) (states self.now)) }
        ensures small { IfOk result (λ places. All (λ base. base < PLACES) places.bases.items) }
        ensures sizes { IfOk result (λ places.
            HaveSizes self.now j (2 ^ length self.now.crossings) places.sizes) }
    {
        // (the number of crossings is small, and so is that of generators)
        let _ = self.crossing_count();
        let count = self.state_count();
        let mut bases = Vec::with_capacity(alloc, count)?;
        let mut sizes = [0; LEVELS];
        'states: for state in 0..count {
            let ones = self.ones(state);
            bases.push(sizes[ones] as u32)?;
            let more = self.count(state, self.own_degrees(state, j));
            sizes[ones] += more;
        }
        Ok(Places { bases, sizes })
    }

    /// How many crossings have their 1-smoothing in a state.
    fn ones(&self, state: usize) -> usize
        requires { state < 2 ^ length self.now.crossings }
        ensures ones { result ≡ one_count self.now state }
        ensures within { result ≤ CROSSINGS }
    {
        // (the number of crossings is small)
        let _ = self.crossing_count();
        usize::from(self.shape(state).ones)
    }

    /// The homological degree of a state, and a quantum degree.
    fn own_degrees(&self, state: usize, j: i16) -> Degrees
        requires { state < 2 ^ length self.now.crossings }
        ensures i { result.i ≡ own_degree self.now state }
        ensures j { result.j ≡ j }
    {
        Degrees {
            i: i16::from(self.shape(state).ones) - i16::from(self.minus),
            j,
        }
    }

    /// How many generators of two degrees there are, given the sizes at the quantum degree.
    pub(crate) fn size(&self, sizes: &[usize], at: Degrees) -> usize
        requires { HaveSizes self.now at.j (2 ^ length self.now.crossings) sizes.now }
        ensures { result ≡ length (generators_at self.now at.i at.j) }
    {
        // (the number of crossings is small)
        let _ = self.crossing_count();
        let ones = i32::from(at.i) + i32::from(self.minus);
        if 0 <= ones && ones <= CROSSINGS as i32 {
            sizes[ones as usize]
        } else {
            0
        }
    }
}
