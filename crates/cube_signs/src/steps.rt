//! The edges out of the states of a diagram, found once for all blocks.

ghost use Rattle.std.specs.Prelude.{◌≡◌, ℕ, ◌+◌, ◌^◌, ◌<◌, ◌≤◌, length, IfOk};
ghost use Rattle.kh_types.specs.declared.limits.TheConstants.{CROSSINGS};
ghost use Rattle.cube_signs.specs.Shapes.{resolution_of, resolutions};
ghost use Rattle.cube_signs.specs.Steps.{steps_in, HasSteps, HaveSteps, IsStep};

use arrayvec::ArrayVec;
use circle_smoothing::{Circles, Edge};
use kh_types::{CROSSINGS, Diagram, NoMemory, bit};
use std::alloc::Global;

/// What the edges out of a state do, by the places of their crossings; none begins at a crossing
/// that has its 1-smoothing.
pub type Steps = ArrayVec<Option<Edge>, CROSSINGS>;

/// The edges out of all states, given the circles of the states.
pub fn all_steps(
    alloc: Global,
    diagram: &Diagram,
    circles: &[Circles],
) -> Result<Vec<Steps>, NoMemory>
    requires { circles.now ≡ resolutions diagram.now }
    ensures { IfOk result (λ rows.
        HaveSteps diagram.now (2 ^ length diagram.now.crossings) (steps_in rows.items)) }
{
    let mut rows = Vec::with_capacity(alloc, circles.len())?;
    'states: for state in 0..circles.len() {
        rows.push(steps_of(diagram, circles, state))?;
    }
    Ok(rows)
}

/// The edges out of a state.
fn steps_of(diagram: &Diagram, circles: &[Circles], state: usize) -> Steps
    requires circles { circles.now ≡ resolutions diagram.now }
    requires state { state < 2 ^ length diagram.now.crossings }
    ensures { HasSteps diagram.now state (length diagram.now.crossings) result.items }
{
    let count = usize::from(diagram.count());
    let mut steps = ArrayVec::new();
    'places: for place in 0..count {
        steps.push(step(diagram, circles, state, place));
    }
    steps
}

/// The edge out of a state at the crossing of a place, if one begins there.
fn step(diagram: &Diagram, circles: &[Circles], state: usize, place: usize) -> Option<Edge>
    requires circles { circles.now ≡ resolutions diagram.now }
    requires state { state < 2 ^ length diagram.now.crossings }
    requires place { place < length diagram.now.crossings }
    ensures { IsStep diagram.now state place result }
{
    // (the number of crossings is small)
    let _ = diagram.count();
    if bit(state as u64, place) == 1 {
        return None;
    }
    let behind = state_behind(state, place);
    Some(circles[state].edge(&circles[behind], place as u8 + 1))
}

/// The state behind the edge out of a state at the crossing of a place.
pub(crate) fn state_behind(state: usize, place: usize) -> usize
    requires state { state < 2 ^ 32 }
    requires place { place < CROSSINGS }
    ensures { result ≡ state + 2 ^ place }
{
    state + (1 << place)
}
