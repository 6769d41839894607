//! The states of a diagram as a tree, in which each crossing parts a branch in two.
//!
//! States whose first crossings have the same smoothings share what these join. So a branch keeps
//! the classes of arcs so far, and each of the two branches that come of it costs two joins more,
//! however many states go on it.

ghost use Rattle.std.specs.Prelude.{◌≡◌, ℕ, [], ◌+◌, ◌*◌, ◌^◌, ◌<◌, ◌≤◌, length, slice_index};
ghost use Rattle.std.specs.List.{fold, range_with_len};
ghost use Rattle.kh_types.specs.declared.limits.TheConstants.{CROSSINGS};
ghost use Rattle.kh_types.specs.Circles.{smoothing_of};
ghost use Rattle.kh_types.specs.Classes.{IsNamed, class_count, joined, merged, merged_all};
ghost use Rattle.circle_smoothing.specs.Branches.{HasArcsBelow, HaveArcsBelow, IsBranch, LeavesCrossings};
ghost use Rattle.circle_smoothing.specs.Branches.{branch_count, count_place};
ghost use Rattle.circle_smoothing.specs.declared.branches.TheConstants.{COUNTS, JOINS, MEMBERS};

use kh_types::{ARCS, CROSSINGS, Crossing, class_of};

/// How many numbers are put into classes at once.
const LANES: usize = 16;

/// The numbers that are put into classes: 0, which is no arc, the arcs, and some that stand alone.
pub const MEMBERS: usize = LANES * (ARCS / LANES + 1);

/// The most joins: each smoothing joins twice.
pub const JOINS: usize = 2 * CROSSINGS;

/// In how many ways states differ by their ones and by their joins.
pub const COUNTS: usize = (CROSSINGS + 1) * (JOINS + 1);

/// The states in which the first crossings have chosen smoothings.
#[derive(Clone, Copy)]
pub struct Branch {
    /// How many of the choices are 1-smoothings.
    ones: u8,
    /// How many joins have made one class of two.
    joins: u8,
    /// The classes of the arcs that were joined.
    classes: [u8; MEMBERS],
}

impl Branch {
    /// The branch of all states, on which no crossing has chosen yet.
    pub fn of_all() -> Branch
        ensures branch { IsBranch result }
        ensures ones { result.ones ≡ 0 }
        ensures joins { result.joins ≡ 0 }
        ensures classes { result.classes ≡ range_with_len 0 MEMBERS }
    {
        Branch {
            ones: 0,
            joins: 0,
            classes: numbers(),
        }
    }
}

/// The numbers below MEMBERS, each in a class of its own.
fn numbers() -> [u8; MEMBERS]
    ensures { result ≡ range_with_len 0 MEMBERS }
{
    let mut numbers = [0; MEMBERS];
    'numbers: for number in 0..MEMBERS {
        numbers[number] = number as u8;
    }
    numbers
}

/// Counts the states that go on a branch, each at the place of its ones and its joins.
pub fn count_branch(counts: &mut [u32], crossings: &[Crossing], branch: &Branch)
    requires size { length counts.old ≡ COUNTS }
    requires branch { IsBranch branch.now }
    requires leaves { LeavesCrossings branch.now (length crossings.now) }
    requires arcs { HaveArcsBelow MEMBERS crossings.now }
    requires room { (place : ℕ) → place < COUNTS
        → slice_index counts.old place + 2 ^ length crossings.now ≤ 2 ^ CROSSINGS }
    ensures size { length counts.new ≡ COUNTS }
    ensures counts { (place : ℕ) → place < COUNTS → slice_index counts.new place
        ≡ slice_index counts.old place
        + branch_count crossings.now branch.now.ones branch.now.classes place }
{
    match crossings.split_first() {
        None => count_state(counts, branch),
        Some((first, rest)) => {
            count_branch(counts, rest, &next(branch, first, 0));
            count_branch(counts, rest, &next(branch, first, 1));
        }
    }
}

/// Counts the state that a branch has come to.
fn count_state(counts: &mut [u32], branch: &Branch)
    requires size { length counts.old ≡ COUNTS }
    requires branch { IsBranch branch.now }
    requires leaves { LeavesCrossings branch.now 0 }
    requires room { (place : ℕ) → place < COUNTS
        → slice_index counts.old place + 1 ≤ 2 ^ CROSSINGS }
    ensures size { length counts.new ≡ COUNTS }
    ensures counts { (place : ℕ) → place < COUNTS → slice_index counts.new place
        ≡ slice_index counts.old place + branch_count [] branch.now.ones branch.now.classes place }
{
    counts[usize::from(branch.ones) * (JOINS + 1) + usize::from(branch.joins)] += 1;
}

/// The branch on which the next crossing has a smoothing.
fn next(branch: &Branch, crossing: &Crossing, smoothing: u8) -> Branch
    requires smoothing { smoothing ≤ 1 }
    requires branch { IsBranch branch.now }
    requires arcs { HasArcsBelow MEMBERS crossing.now }
    requires ones { branch.now.ones + smoothing ≤ CROSSINGS }
    requires joins { branch.now.joins + 2 ≤ JOINS }
    ensures branch { IsBranch result }
    ensures ones { result.ones ≡ branch.now.ones + smoothing }
    ensures joins { result.joins ≤ branch.now.joins + 2 }
    ensures classes { result.classes
        ≡ fold joined branch.now.classes (smoothing_of smoothing crossing.now) }
{
    let [first, second] = smoothing_of(crossing, smoothing);
    let classes = joined(&branch.classes, first);
    Branch {
        ones: branch.ones + smoothing,
        joins: branch.joins + fewer(&branch.classes, first) + fewer(&classes, second),
        classes: joined(&classes, second),
    }
}

/// What a smoothing of a crossing joins.
fn smoothing_of(crossing: &Crossing, smoothing: u8) -> [(u8, u8); 2]
    ensures { result ≡ smoothing_of smoothing crossing.now }
{
    let slots = crossing.0;
    if smoothing == 0 {
        [(slots[0], slots[1]), (slots[2], slots[3])]
    } else {
        [(slots[0], slots[3]), (slots[1], slots[2])]
    }
}

/// How many fewer classes there are after two numbers have been joined.
fn fewer(classes: &[u8], pair: (u8, u8)) -> u8
    requires named { IsNamed MEMBERS classes.now }
    requires first { pair.0 < MEMBERS }
    requires second { pair.1 < MEMBERS }
    ensures fewer { class_count (joined classes.now pair) + result ≡ class_count classes.now }
    ensures one { result ≤ 1 }
{
    if class_of(classes, pair.0 as usize) == class_of(classes, pair.1 as usize) {
        0
    } else {
        1
    }
}

/// The classes after two numbers have been joined.
fn joined(classes: &[u8; MEMBERS], pair: (u8, u8)) -> [u8; MEMBERS]
    ensures { result ≡ joined classes.now pair }
{
    let x = class_of(classes, pair.0 as usize);
    let y = class_of(classes, pair.1 as usize);
    let mut joined = *classes;
    merge(&mut joined, x, y);
    joined
}

/// Makes one class of two.
#[tactic(auto, using(kh_types::proofs::ClassLemmas::map_in_place))]
fn merge(classes: &mut [u8; MEMBERS], x: u8, y: u8)
    ensures { classes.new ≡ merged_all x y classes.old }
{
    for class in classes.iter_mut() {
        *class = merged(x, y, *class);
    }
}

/// The number of a class after two classes have become one.
fn merged(x: u8, y: u8, class: u8) -> u8
    ensures { result ≡ merged x y class }
{
    if class == x.max(y) { x.min(y) } else { class }
}
