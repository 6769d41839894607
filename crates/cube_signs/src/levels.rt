//! The states of a diagram by the number of their 1-smoothings, so that each degree of a block goes
//! over its own states alone.

ghost use Rattle.std.specs.Prelude.{◌≡◌, ◌+◌, ◌<◌, ◌++◌, ◌∷◌, [], IfOk, OnOk, length, map};
ghost use Rattle.std.specs.Prelude.{slice_index_or, slice_set};
ghost use Rattle.kh_types.specs.declared.limits.TheConstants.{CROSSINGS};
ghost use Rattle.kh_types.specs.Generators.{states};
ghost use Rattle.sparse_block.specs.Inside.{lists_in};
ghost use Rattle.cube_signs.specs.Shapes.{shape_of};
ghost use Rattle.cube_signs.specs.Tables.{all_levels, no_states, states_at};

use crate::cube::Cube;
use crate::names::Degrees;
use crate::shape::Shape;
use kh_types::{CROSSINGS, Diagram, NoMemory};
use std::alloc::Global;

/// For each number of 1-smoothings the states with as many, ascending, given the shapes of all
/// states.
pub fn all_levels(
    alloc: Global,
    diagram: &Diagram,
    shapes: &[Shape],
) -> Result<Vec<Vec<u32>>, NoMemory>
    requires { shapes.now ≡ map (shape_of diagram.now) (states diagram.now) }
    ensures { IfOk result (λ levels. lists_in levels.items ≡ all_levels diagram.now) }
{
    // (the number of crossings is small)
    let _ = diagram.count();
    let mut levels = no_levels(alloc)?;
    'states: for state in 0..shapes.len() {
        push_state(&mut levels, usize::from(shapes[state].ones), state as u32)?;
    }
    Ok(levels)
}

/// A list with no state for each number of 1-smoothings that a state can have.
fn no_levels(alloc: Global) -> Result<Vec<Vec<u32>>, NoMemory>
    ensures { IfOk result (λ levels. lists_in levels.items ≡ no_states (CROSSINGS + 1)) }
{
    let mut levels = Vec::with_capacity(alloc, CROSSINGS + 1)?;
    'levels: for _ in 0..CROSSINGS + 1 {
        levels.push(Vec::new(alloc))?;
    }
    Ok(levels)
}

/// Adds a state to the list at a place.
fn push_state(levels: &mut Vec<Vec<u32>>, place: usize, state: u32) -> Result<(), NoMemory>
    requires { place < length levels.old.items }
    ensures { OnOk result (lists_in levels.new.items ≡ slice_set (lists_in levels.old.items) place
        (slice_index_or (lists_in levels.old.items) place [] ++ state ∷ [])) }
{
    levels[place].push(state)?;
    Ok(())
}

impl Cube {
    /// The states whose generators have the homological degree of two degrees, ascending.
    pub(crate) fn states_at(&self, at: Degrees) -> &[u32]
        ensures { result.now ≡ states_at self.now at.i }
    {
        // (the number of crossings is small)
        let _ = self.crossing_count();
        let ones = i32::from(at.i) + i32::from(self.minus);
        if 0 <= ones && ones <= CROSSINGS as i32 {
            &self.levels[ones as usize]
        } else {
            &[]
        }
    }
}
