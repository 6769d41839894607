//! The circles of a state: the classes of the arcs that its smoothings join.

ghost use Rattle.std.specs.Prelude.{◌≡◌, ◌<◌, ◌≤◌, ◌+◌, ◌*◌, [], ◌∷◌, ◌++◌, length};
ghost use Rattle.std.specs.List.{filter};
ghost use Rattle.arrayvec.specs.ArrayVec.{array_vec_len};
ghost use Rattle.kh_types.specs.Code.{arcs_and_loops};
ghost use Rattle.kh_types.specs.Classes.{is_least};
ghost use Rattle.kh_types.specs.Circles.{smoothing_of, smoothings_of, circles_of};
ghost use Rattle.kh_types.specs.declared.limits.TheConstants.{ARCS};
ghost use Rattle.plain_table.specs.declared.circles.TheConstants.{NAMES};

use arrayvec::ArrayVec;
use kh_types::{ARCS, CLASS_MEMBERS, COMPONENTS, Crossing, Diagram, bit, classes_of, is_least};

/// The most arcs and loops of a diagram.
pub const NAMES: usize = ARCS + COMPONENTS;

/// Names of arcs and loops, or of circles by the least arc or loop on them.
pub type Names = ArrayVec<u8, NAMES>;

/// The circle of each number up to the last name, by its least name; the number 0 is no name and
/// stands alone.
pub type Circles = ArrayVec<u8, CLASS_MEMBERS>;

/// The circle of each arc and each loop in a state.
pub fn circles_of(diagram: &Diagram, state: u32) -> Circles
    ensures { result.items ≡ circles_of diagram.now state }
{
    classes_of(name_count(diagram) + 1, &smoothings_of(diagram, state))
}

/// How many arcs and loops a diagram has.
fn name_count(diagram: &Diagram) -> usize
    ensures count { result ≡ 2 * length diagram.now.crossings + diagram.now.loops }
    ensures within { result ≤ NAMES }
{
    2 * usize::from(diagram.count()) + usize::from(diagram.loops())
}

/// The pairs of arcs that the smoothings of a state join.
#[tactic(auto, using(crate::proofs::CircleLemmas::smoothings_more))]
fn smoothings_of(diagram: &Diagram, state: u32) -> ArrayVec<(u8, u8), ARCS>
    ensures { result.items ≡ smoothings_of diagram.now.crossings state }
{
    let mut smoothings = ArrayVec::new();
    let crossings = diagram.crossings();
    'crossings: for place in 0..usize::from(diagram.count()) {
        push_smoothing(
            &mut smoothings,
            bit(u64::from(state), place),
            &crossings[place],
        );
    }
    smoothings
}

/// Adds the two pairs of arcs that a smoothing of a crossing joins.
fn push_smoothing(smoothings: &mut ArrayVec<(u8, u8), ARCS>, choice: u8, crossing: &Crossing)
    requires { array_vec_len smoothings.old + 2 ≤ ARCS }
    ensures added { smoothings.new.items
        ≡ smoothings.old.items ++ smoothing_of choice crossing.now }
    ensures size { array_vec_len smoothings.new ≡ array_vec_len smoothings.old + 2 }
{
    let [first, second] = smoothing_of(choice, crossing);
    smoothings.push(first);
    smoothings.push(second);
}

/// The two pairs of arcs that a smoothing joins.
fn smoothing_of(choice: u8, crossing: &Crossing) -> [(u8, u8); 2]
    ensures { result ≡ smoothing_of choice crossing.now }
{
    let [i, j, k, l] = crossing.0;
    if choice == 0 {
        [(i, j), (k, l)]
    } else {
        [(i, l), (j, k)]
    }
}

/// The circles by their least arcs, ascending, and the loops after them.
#[tactic(auto, using(kh_types::proofs::Ranges::filter_from_one))]
pub fn circle_names(diagram: &Diagram, circles: &[u8]) -> Names
    ensures { result.items ≡ filter (is_least circles.now) (arcs_and_loops diagram.now) }
{
    let mut names = ArrayVec::new();
    'names: for place in 0..name_count(diagram) {
        push_least(&mut names, circles, place as u8 + 1);
    }
    names
}

/// Adds a name to the list where it is the least of its class.
fn push_least(names: &mut Names, circles: &[u8], name: u8)
    requires { array_vec_len names.old < NAMES }
    ensures names { names.new.items ≡ names.old.items ++ filter (is_least circles.now) (name ∷ []) }
    ensures size { array_vec_len names.new ≤ array_vec_len names.old + 1 }
{
    if is_least(circles, name) {
        names.push(name);
    }
}
