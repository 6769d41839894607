//! The terms of states, which states of the same kind have in common.

ghost use Rattle.std.specs.Prelude.{◌≡◌, ℤ, ◌+◌, ◌<◌, ◌≤◌, ◌^◌, pos, ◌+ℤ◌, ◌-ℤ◌, unsigned_abs};
ghost use Rattle.kh_types.specs.declared.limits.TheConstants.{CIRCLES, EXPONENT};
ghost use Rattle.kh_types.specs.Directions.{plus_count, minus_count};
ghost use Rattle.kh_types.specs.StateSum.{circle_coefficient};
ghost use Rattle.jones_sum.specs.Kinds.{kind_term};
ghost use Rattle.jones_sum.specs.declared.laurent.TheConstants.{COEFFICIENTS};
ghost use Rattle.circle_smoothing.specs.declared.kinds.TheConstants.{KINDS};

use crate::laurent::COEFFICIENTS;
use circle_smoothing::{COLUMNS, CountedDiagram, Triangle};
use kh_types::EXPONENT;

/// The numbers of positive and of negative crossings.
#[derive(Clone, Copy)]
pub struct Signs {
    pub plus: u8,
    pub minus: u8,
}

impl Signs {
    /// Those of a diagram.
    pub fn of_counted(counted: &CountedDiagram) -> Signs
        ensures plus { result.plus ≡ plus_count counted.now.crossings }
        ensures minus { result.minus ≡ minus_count counted.now.crossings }
    {
        let diagram = counted.diagram();
        Signs {
            plus: diagram.plus(),
            minus: diagram.minus(),
        }
    }
}

/// What a state of a kind adds to the coefficient at a place.
#[tactic(auto, using(crate::proofs::TermLemmas::signs))]
pub fn term(triangle: &Triangle, signs: Signs, kind: usize, place: usize) -> i128
    requires kind { kind < KINDS }
    requires place { place < COEFFICIENTS }
    ensures term { result ≡ kind_term signs.plus signs.minus (pos place -ℤ pos EXPONENT) kind }
    ensures within { unsigned_abs result ≤ 2 ^ CIRCLES }
{
    let (ones, circles) = (kind / COLUMNS, kind % COLUMNS);
    let (plus, minus) = (usize::from(signs.plus), usize::from(signs.minus));
    let raised = place + circles + 2 * minus;
    let lowered = EXPONENT + ones + plus;
    let size = ways(triangle, circles, raised, lowered) as i128;
    if (ones + minus) % 2 == 0 { size } else { -size }
}

/// In how many ways circles, each of which gives q or q^-1, give the exponent
/// raised - lowered - circles.
#[tactic(auto, using(crate::proofs::TermLemmas::ways))]
fn ways(triangle: &Triangle, circles: usize, raised: usize, lowered: usize) -> u64
    requires { circles ≤ CIRCLES }
    ensures ways { (exponent : ℤ) → exponent +ℤ pos (circles + lowered) ≡ pos raised
        → result ≡ circle_coefficient circles exponent }
    ensures within { result ≤ 2 ^ CIRCLES }
{
    match raised.checked_sub(lowered) {
        Some(twice) if twice % 2 == 0 => triangle.ways(circles, twice / 2),
        _ => 0,
    }
}
