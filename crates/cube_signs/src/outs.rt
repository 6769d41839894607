//! The edges out of a state, with what is alike along each for all generators of the state.

ghost use Rattle.std.specs.Prelude.{◌≡◌, ◌+◌, ◌<◌, ◌≤◌, ◌++◌, length, slice_index, All, OnOk};
ghost use Rattle.kh_types.specs.declared.limits.TheConstants.{CROSSINGS};
ghost use Rattle.sparse_block.specs.declared.entry.TheConstants.{MOST_VALUES};
ghost use Rattle.cube_signs.specs.Columns.{out_along, outs_to, edge_sign_at, AreSmall, IsSmall};
ghost use Rattle.cube_signs.specs.Columns.{IsSmallOut};
ghost use Rattle.cube_signs.specs.declared.limits.TheConstants.{PLACES};

use crate::steps::state_behind;
use circle_smoothing::Edge;
use kh_types::{NoMemory, bit};

/// An edge out of a state: what it does, where the first generator of the state behind it stands,
/// and the sign of its entries.
#[derive(Clone, Copy)]
pub struct Out {
    pub change: Edge,
    pub base: u32,
    pub sign: u8,
}

/// Where an edge begins: a state and the place of a crossing, with the sign of the edge there.
#[derive(Clone, Copy)]
struct From {
    state: u32,
    place: usize,
    sign: u8,
}

/// Finds the edges out of a state, in place of those that are given.
pub(crate) fn find_outs(
    outs: &mut Vec<Out>,
    p: u8,
    steps: &[Option<Edge>],
    bases: &[u32],
    state: u32,
) -> Result<(), NoMemory>
    requires prime { 1 < p }
    requires values { p ≤ MOST_VALUES }
    requires count { length steps.now ≤ CROSSINGS }
    requires steps { AreSmall steps.now }
    requires bases { All (λ base. base < PLACES) bases.now }
    ensures outs { OnOk result
        (outs.new.items ≡ outs_to p steps.now bases.now state (length steps.now)) }
    ensures small { OnOk result (All IsSmallOut outs.new.items) }
{
    outs.clear();
    outs.reserve(steps.len())?;
    let mut sign = 1;
    'places: for place in 0..steps.len() {
        push_out(outs, steps[place], bases, From { state, place, sign })?;
        sign = next_sign(p, sign, state, place);
    }
    Ok(())
}

/// Adds an edge, if there is one.
fn push_out(
    outs: &mut Vec<Out>,
    step: Option<Edge>,
    bases: &[u32],
    from: From,
) -> Result<(), NoMemory>
    requires place { from.place < CROSSINGS }
    requires sign { from.sign < MOST_VALUES }
    requires step { IsSmall step }
    requires bases { All (λ base. base < PLACES) bases.now }
    requires small { All IsSmallOut outs.old.items }
    ensures outs { OnOk result (outs.new.items
        ≡ outs.old.items ++ out_along from.sign bases.now from.state from.place step) }
    ensures small { OnOk result (All IsSmallOut outs.new.items) }
{
    if let Some(change) = step {
        let behind = state_behind(from.state as usize, from.place);
        outs.push(Out {
            change,
            base: number_at(bases, behind),
            sign: from.sign,
        })?;
    }
    Ok(())
}

/// The sign of the edge at the next place.
fn next_sign(p: u8, sign: u8, state: u32, place: usize) -> u8
    requires prime { 1 < p }
    requires place { place < CROSSINGS }
    requires sign { sign ≡ edge_sign_at p state place }
    ensures sign { result ≡ edge_sign_at p state (place + 1) }
{
    if bit(u64::from(state), place) == 0 {
        sign
    } else {
        p - sign
    }
}

/// The number at a place, and 0 past the end.
pub(crate) fn number_at(numbers: &[u32], place: usize) -> u32
    requires { All (λ x. x < PLACES) numbers.now }
    ensures number { result ≡ slice_index numbers.now place }
    ensures small { result < PLACES }
{
    numbers.get(place).copied().unwrap_or(0)
}
