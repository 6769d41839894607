//! The objects of a complex, counted by degree and shift, and what they count at both degrees.

ghost use Rattle.std.specs.Prelude.{◌≡◌, ℤ, ◌+◌, ◌*◌, ◌<◌, ◌≤◌, ◌^◌, pos, ◌+ℤ◌, ◌-ℤ◌, length, get_or, slice_set, IfOk, OnOk};
ghost use Rattle.std.specs.List.{position};
ghost use Rattle.kh_types.specs.StateSum.{circle_coefficient};
ghost use Rattle.kh_types.specs.declared.limits.TheConstants.{CIRCLES, CROSSINGS};
ghost use Rattle.tangle_scan.specs.Tallies.{AreTallies, IsTallied, IsTalliedWith, count_at, is_tally_of, once, raised, tallied, tally_of};

use crate::complex::Object;
use crate::finished::table::Dimensions;
use circle_smoothing::Triangle;
use kh_types::NoMemory;
use std::alloc::Global;

/// A homological degree, a shift, and how many objects have both.
#[derive(Clone, Copy, Debug, PartialEq, Eq)]
pub struct Tally {
    pub degree: u8,
    pub shift: i16,
    pub count: u64,
}

/// The objects of a complex, counted by degree and shift, and what a table reads of its diagram:
/// its numbers of loops, of crossings, and of positive and negative ones.
#[derive(Drop)]
pub struct Counted {
    pub tallies: Vec<Tally>,
    pub loops: u8,
    pub crossings: u8,
    pub plus: u8,
    pub minus: u8,
    ghost few: { tallied once tallies.items < 2 ^ 64 },
    ghost few_loops: { loops ≤ CIRCLES },
    ghost few_crossings: { crossings ≤ CROSSINGS },
}

/// Counts the objects that are there.
pub(crate) fn tallies_of(alloc: Global, objects: &[Object]) -> Result<Vec<Tally>, NoMemory>
    ensures tallies { IfOk result (λ made. AreTallies objects.now made.items) }
    ensures few { IfOk result (λ made. tallied once made.items < 2 ^ 64) }
{
    let mut tallies = Vec::new(alloc);
    'objects: for object in objects {
        count_object(&mut tallies, object)?;
    }
    Ok(tallies)
}

/// Counts an object, if it is there.
fn count_object(tallies: &mut Vec<Tally>, object: &Object) -> Result<(), NoMemory>
    requires { tallied once tallies.old.items + 1 < 2 ^ 64 }
    ensures { OnOk result (IsTalliedWith object.now tallies.old.items tallies.new.items) }
{
    if object.is_alive {
        count_degrees(tallies, object.degree, object.shift)
    } else {
        Ok(())
    }
}

/// Counts an object of this degree and this shift.
fn count_degrees(tallies: &mut Vec<Tally>, degree: u8, shift: i16) -> Result<(), NoMemory>
    requires { tallied once tallies.old.items + 1 < 2 ^ 64 }
    ensures { OnOk result (IsTallied degree shift tallies.old.items tallies.new.items) }
{
    match place_of(tallies, degree, shift) {
        Some(place) => raise(tallies, place),
        None => tallies.push(Tally {
            degree,
            shift,
            count: 1,
        })?,
    }
    Ok(())
}

/// The place of the tally of this degree and this shift.
fn place_of(tallies: &[Tally], degree: u8, shift: i16) -> Option<usize>
    ensures { result ≡ position (is_tally_of degree shift) tallies.now }
{
    tallies
        .iter()
        .position(|tally| tally.degree == degree && tally.shift == shift)
}

/// Counts one more at a place.
fn raise(tallies: &mut Vec<Tally>, place: usize)
    requires place { place < length tallies.old.items }
    requires few { tallied once tallies.old.items + 1 < 2 ^ 64 }
    ensures { tallies.new.items ≡ slice_set tallies.old.items place
        (raised (get_or tallies.old.items place (tally_of 0 (pos 0) 0))) }
{
    tallies[place].count += 1;
}

/// The numbers of loops, of positive and of negative crossings of a diagram, and two degrees.
#[derive(Clone, Copy)]
pub(crate) struct Asked {
    pub loops: u8,
    pub plus: u8,
    pub minus: u8,
    pub i: i16,
    pub j: i16,
}

impl Dimensions for Counted {
    ghost use Rattle.tangle_scan.specs.CountedRows.{dims_of};

    ghost dims = { dims_of };

    fn dimension(&self, triangle: &Triangle, i: i16, j: i16) -> u128 {
        let asked = Asked {
            loops: self.loops,
            plus: self.plus,
            minus: self.minus,
            i,
            j,
        };
        let mut total = 0u128;
        'tallies: for tally in &self.tallies {
            total += times(tally.count, value_of(triangle, asked, tally));
        }
        total
    }
}

/// A value, as often as it is counted.
fn times(count: u64, value: u64) -> u128
    requires { value ≤ 2 ^ CIRCLES }
    ensures product { result ≡ count * value }
    ensures within { result ≤ count * 2 ^ CIRCLES }
{
    u128::from(count) * u128::from(value)
}

/// What an object of the degree and the shift of a tally counts there.
pub(crate) fn value_of(triangle: &Triangle, asked: Asked, tally: &Tally) -> u64
    requires { asked.loops ≤ CIRCLES }
    ensures value { result ≡ count_at asked.loops asked.plus asked.minus asked.i asked.j
        tally.now.degree tally.now.shift }
    ensures within { result ≤ 2 ^ CIRCLES }
{
    if i16::from(tally.degree) - i16::from(asked.minus) == asked.i {
        ways_of(triangle, asked, tally)
    } else {
        0
    }
}

/// In how many ways labels of the loops give the quantum degree.
fn ways_of(triangle: &Triangle, asked: Asked, tally: &Tally) -> u64
    requires { asked.loops ≤ CIRCLES }
    ensures ways { result ≡ circle_coefficient asked.loops
        (((asked.j -ℤ tally.now.shift) -ℤ pos (tally.now.degree + asked.plus))
        +ℤ pos (2 * asked.minus)) }
    ensures within { result ≤ 2 ^ CIRCLES }
{
    let (loops, plus, minus) = (
        usize::from(asked.loops),
        usize::from(asked.plus),
        usize::from(asked.minus),
    );
    let raised = (i32::from(asked.j) + 32_768) as usize + loops + 2 * minus;
    let lowered = (i32::from(tally.shift) + 32_768) as usize + usize::from(tally.degree) + plus;
    ways(triangle, loops, raised, lowered)
}

/// In how many ways circles, each of which gives q or q^-1, give the exponent
/// raised - lowered - circles.
#[tactic(auto, using(jones_sum::proofs::TermLemmas::ways))]
fn ways(triangle: &Triangle, circles: usize, raised: usize, lowered: usize) -> u64
    requires { circles ≤ CIRCLES }
    ensures ways { (exponent : ℤ) → exponent +ℤ pos (circles + lowered) ≡ pos raised
        → result ≡ circle_coefficient circles exponent }
    ensures within { result ≤ 2 ^ CIRCLES }
{
    match raised.checked_sub(lowered) {
        Some(twice) if twice % 2 == 0 => triangle.ways(circles, twice / 2),
        _ => 0,
    }
}
