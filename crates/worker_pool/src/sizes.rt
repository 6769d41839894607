//! How many generators the blocks of a diagram have. They say how blocks are shared out; no clause
//! rests on them.

ghost use Rattle.std.specs.Prelude.{◌≡◌, ◌^◌, ◌≤◌, ◌≤ℤ◌, neg_ℤ, pos, IfOk, length};
ghost use Rattle.kh_types.specs.declared.limits.TheConstants.{CIRCLES, CROSSINGS};

use circle_smoothing::CountedDiagram;
use kh_types::{CIRCLES, CROSSINGS, Diagram, NoMemory};
use std::alloc::Global;

/// How many generators the blocks at some quantum degrees have, of which each is 2 more than the
/// one before it.
pub(crate) fn block_sizes(
    alloc: Global,
    counted: &CountedDiagram,
    degrees: &[i16],
) -> Result<Vec<u64>, NoMemory>
    ensures { IfOk result (λ sizes. length sizes.items ≡ length degrees.now) }
{
    let mut sizes = no_sizes(alloc, degrees.len())?;
    let Some(first) = degrees.first() else {
        return Ok(sizes);
    };
    let lift = lift(counted.diagram(), *first);
    'ones: for ones in 0..CROSSINGS + 1 {
        add_states(&mut sizes, counted, lift, ones);
    }
    Ok(sizes)
}

/// How far above a quantum degree that of a state with no circles and no 1-smoothings is.
fn lift(diagram: &Diagram, first: i16) -> i32 {
    i32::from(diagram.plus()) - 2 * i32::from(diagram.minus()) - i32::from(first)
}

/// So many times 0.
fn no_sizes(alloc: Global, count: usize) -> Result<Vec<u64>, NoMemory>
    ensures { IfOk result (λ sizes. length sizes.items ≡ count) }
{
    let mut sizes = Vec::with_capacity(alloc, count)?;
    'places: for _ in 0..count {
        sizes.push(0)?;
    }
    Ok(sizes)
}

/// Adds the generators of the states with so many 1-smoothings.
fn add_states(sizes: &mut [u64], counted: &CountedDiagram, lift: i32, ones: usize)
    requires { ones ≤ CROSSINGS }
    ensures { length sizes.new ≡ length sizes.old }
{
    'circles: for circles in 0..CIRCLES + 1 {
        let top = i64::from(lift) + ones as i64 + circles as i64;
        add_kind(sizes, u64::from(counted.count(ones, circles)), circles, top);
    }
}

/// Adds the generators of so many states with so many circles each, whose greatest quantum degree
/// is so far above that of the first block.
fn add_kind(sizes: &mut [u64], states: u64, circles: usize, top: i64)
    requires circles { circles ≤ CIRCLES }
    requires low { neg_ℤ (pos (2 ^ 40)) ≤ℤ top }
    ensures { length sizes.new ≡ length sizes.old }
{
    if states == 0 {
        return;
    }
    let mut generators = states;
    'minuses: for minuses in 0..circles + 1 {
        add_at(sizes, top - 2 * minuses as i64, generators);
        generators = generators.saturating_mul((circles - minuses) as u64) / (minuses + 1) as u64;
    }
}

/// Adds to the size at an even distance from the first quantum degree.
fn add_at(sizes: &mut [u64], distance: i64, generators: u64)
    ensures { length sizes.new ≡ length sizes.old }
{
    if distance < 0 {
        return;
    }
    if let Some(size) = sizes.get_mut((distance / 2) as usize) {
        *size = size.saturating_add(generators);
    }
}
