//! The numbers of circles.

ghost use Rattle.std.specs.Prelude.{◌≡◌, ◌+◌, ◌-◌, ◌<◌, ◌≤◌, length};
ghost use Rattle.kh_types.specs.declared.classes.TheConstants.{CLASS_MEMBERS};
ghost use Rattle.circle_smoothing.specs.CircleLists.{AreCircles, circle_number_at, numbers_to};
ghost use Rattle.kh_types.specs.CircleNumbers.{names_to};

use arrayvec::ArrayVec;
use kh_types::{CLASS_MEMBERS, class_of, is_least};

/// The number of the circle of each arc and loop, after an entry for the number 0. The least name
/// of a circle has the next number, and each other name that of the least.
#[tactic(auto, using(crate::proofs::ListedNumbers::all_numbers))]
pub fn numbers_of(circles: &[u8]) -> ArrayVec<u8, CLASS_MEMBERS>
    requires circles { AreCircles circles.now }
    requires few { length circles.now ≤ CLASS_MEMBERS }
    ensures { result.items ≡ numbers_to circles.now (length circles.now - 1) }
{
    let mut numbers = ArrayVec::new();
    let mut count = 0;
    numbers.push(0);
    'names: for place in 0..circles.len() - 1 {
        numbers.push(next_number(circles, &numbers, count, place));
        count = next_count(circles, count, place);
    }
    numbers
}

/// The number of the circle of the name behind a place, where the numbers up to that place are
/// given, and how many they are.
#[tactic(auto, using(crate::proofs::ListedNumbers::next_number))]
fn next_number(circles: &[u8], numbers: &[u8], count: u8, place: usize) -> u8
    requires circles { AreCircles circles.now }
    requires few { length circles.now ≤ CLASS_MEMBERS }
    requires within { place + 1 < length circles.now }
    requires numbers { numbers.now ≡ numbers_to circles.now place }
    requires count { count ≡ length (names_to circles.now place) }
    ensures { result ≡ circle_number_at circles.now (place + 1) }
{
    if is_least(circles, place as u8 + 1) {
        count
    } else {
        numbers[class_of(circles, place + 1) as usize]
    }
}

/// How many circles there are up to the name behind a place.
#[tactic(auto, using(crate::proofs::ListedNumbers::next_count))]
fn next_count(circles: &[u8], count: u8, place: usize) -> u8
    requires few { length circles.now ≤ CLASS_MEMBERS }
    requires within { place + 1 < length circles.now }
    requires count { count ≡ length (names_to circles.now place) }
    ensures count { result ≡ length (names_to circles.now (place + 1)) }
    ensures within { result ≤ place + 1 }
{
    if is_least(circles, place as u8 + 1) {
        count + 1
    } else {
        count
    }
}

/// How many circles there are.
pub fn count_of(circles: &[u8]) -> u8
    requires { length circles.now ≤ CLASS_MEMBERS }
    ensures { result ≡ length (names_to circles.now (length circles.now - 1)) }
{
    least_count(circles) as u8
}

fn least_count(circles: &[u8]) -> usize
    requires { length circles.now ≤ CLASS_MEMBERS }
    ensures count { result ≡ length (names_to circles.now (length circles.now - 1)) }
    ensures within { result ≤ length circles.now }
{
    (1..circles.len())
        .filter(|name| is_least(circles, *name as u8))
        .count()
}
