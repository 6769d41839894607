//! Classes of numbers under the joining of pairs.

ghost use Rattle.std.specs.Prelude.{◌≡◌, ◌≤◌, length, slice_index};
ghost use Rattle.kh_types.specs.declared.classes.TheConstants.{CLASS_MEMBERS};
ghost use Rattle.kh_types.specs.Classes.{classes_of, class_count, joined, merged, merged_all, is_least};
ghost use Rattle.std.specs.List.{range_with_len};

use crate::limits::CROSSINGS;
use arrayvec::ArrayVec;

/// The most numbers that are put into classes: as many as the largest diagram has darts.
pub const CLASS_MEMBERS: usize = 4 * CROSSINGS;

/// The class of each number below `count`, which is the least number in it, where the two numbers
/// of each pair are in one class. A pair may hold any numbers; one that is not below `count` counts
/// as one in the class 0.
pub fn classes_of(count: usize, pairs: &[(u8, u8)]) -> ArrayVec<u8, CLASS_MEMBERS>
    requires { count ≤ CLASS_MEMBERS }
    ensures { result.items ≡ classes_of count pairs.now }
{
    let mut classes = numbers_below(count);
    for pair in pairs {
        join(&mut classes, *pair);
    }
    classes
}

/// The numbers below `count`.
#[tactic(auto, using(crate::proofs::Ranges::range_steps))]
pub(crate) fn numbers_below(count: usize) -> ArrayVec<u8, CLASS_MEMBERS>
    requires { count ≤ CLASS_MEMBERS }
    ensures { result.items ≡ range_with_len 0 count }
{
    let mut numbers = ArrayVec::new();
    for number in 0..count {
        numbers.push(number as u8);
    }
    numbers
}

/// Makes one class of those of the two numbers of a pair.
#[tactic(auto, using(crate::proofs::ClassLemmas::map_in_place))]
pub(crate) fn join(classes: &mut [u8], pair: (u8, u8))
    ensures { classes.new ≡ joined classes.old pair }
{
    let x = class_of(classes, pair.0 as usize);
    let y = class_of(classes, pair.1 as usize);
    for class in classes.iter_mut() {
        *class = merged(x, y, *class);
    }
}

/// The class of a number; 0 for one that is in none.
pub fn class_of(classes: &[u8], number: usize) -> u8
    ensures { result ≡ slice_index classes.now number }
{
    classes.get(number).copied().unwrap_or(0)
}

/// The number of a class, after the classes numbered `x` and `y` have become one.
fn merged(x: u8, y: u8, class: u8) -> u8
    ensures { result ≡ merged x y class }
{
    if class == x.max(y) { x.min(y) } else { class }
}

/// Whether a number is the least of its class, and so names it.
pub fn is_least(classes: &[u8], number: u8) -> bool
    ensures { result ≡ is_least classes.now number }
{
    class_of(classes, number as usize) == number
}

/// How many classes there are.
pub fn class_count(classes: &[u8]) -> usize
    requires { length classes.now ≤ CLASS_MEMBERS }
    ensures count { result ≡ class_count classes.now }
    ensures within { result ≤ length classes.now }
{
    (0..classes.len())
        .filter(|number| is_least(classes, *number as u8))
        .count()
}
