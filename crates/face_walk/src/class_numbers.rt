//! The numbers of classes.

ghost use Rattle.std.specs.Prelude.{◌≡◌, ◌<◌, ◌≤◌, length};
ghost use Rattle.kh_types.specs.Classes.{IsNamed, class_count, is_least};
ghost use Rattle.std.specs.List.{filter, range_with_len};
ghost use Rattle.kh_types.specs.declared.classes.TheConstants.{CLASS_MEMBERS};
ghost use Rattle.face_walk.specs.ClassNumbers.{class_number, class_numbers};

use arrayvec::ArrayVec;
use kh_types::{CLASS_MEMBERS, class_of, is_least};

/// The numbers of the classes of all, in order.
#[tactic(auto, using(kh_types::proofs::Ranges::range_steps))]
pub fn class_numbers(classes: &[u8]) -> ArrayVec<u8, CLASS_MEMBERS>
    requires named { IsNamed (length classes.now) classes.now }
    requires few { length classes.now ≤ CLASS_MEMBERS }
    ensures { result.items ≡ class_numbers classes.now }
{
    let mut numbers = ArrayVec::new();
    for place in 0..classes.len() {
        numbers.push(class_number(classes, place as u8));
    }
    numbers
}

/// The number of the class of a number, which is how many classes have a lesser least number.
#[tactic(auto, using(crate::proofs::NumberLemmas::counted))]
pub fn class_number(classes: &[u8], number: u8) -> u8
    requires named { IsNamed (length classes.now) classes.now }
    requires few { length classes.now ≤ CLASS_MEMBERS }
    requires within { number < length classes.now }
    ensures number { result ≡ class_number classes.now number }
    ensures below { result < class_count classes.now }
{
    least_below(classes, class_of(classes, number as usize)) as u8
}

/// How many numbers below one are the least of their class.
fn least_below(classes: &[u8], number: u8) -> usize
    ensures count { result ≡ length (filter (is_least classes.now) (range_with_len 0 number)) }
    ensures within { result ≤ number }
{
    (0..number)
        .filter(|other| is_least(classes, *other))
        .count()
}
