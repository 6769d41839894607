//! The state sum.

ghost use Rattle.std.specs.Prelude.{◌≡◌, ◌+◌, ◌*◌, ◌^◌, ◌<◌, ◌≤◌, pos, ◌-ℤ◌, ◌+ℤ◌, ◌*ℤ◌, length, slice_index, unsigned_abs};
ghost use Rattle.std.specs.List.{sum};
ghost use Rattle.kh_types.specs.declared.limits.TheConstants.{CIRCLES, CROSSINGS, EXPONENT};
ghost use Rattle.kh_types.specs.StateSum.{state_sum};
ghost use Rattle.jones_sum.specs.Coefficients.{coefficients_of};
ghost use Rattle.jones_sum.specs.Kinds.{counted_sum, kind_term};
ghost use Rattle.jones_sum.specs.declared.laurent.TheConstants.{COEFFICIENTS};
ghost use Rattle.circle_smoothing.specs.declared.kinds.TheConstants.{KINDS};

use crate::kinds::state_counts;
use crate::laurent::{COEFFICIENTS, Laurent};
use crate::terms::{Signs, term};
use circle_smoothing::{CountedDiagram, Triangle};
use kh_types::Diagram;

/// The unnormalised Jones polynomial of a diagram: the sum over its states of
/// (-1)^(r - n-) q^(r + n+ - 2n-) (q + q^-1)^circles, where r is the number of crossings with their
/// 1-smoothing. Source: Bar-Natan 2002, section 2.
pub fn jones(diagram: &Diagram) -> Laurent
    ensures { result ≡ coefficients_of (state_sum diagram.now) }
{
    state_sum(&CountedDiagram::of_diagram(diagram))
}

/// The same, of a diagram with its states counted.
pub fn state_sum(counted: &CountedDiagram) -> Laurent
    ensures { result ≡ coefficients_of (state_sum counted.now) }
{
    let counts = state_counts(counted);
    let signs = Signs::of_counted(counted);
    let triangle = Triangle::new();
    let mut coefficients = [0; COEFFICIENTS];
    'places: for place in 0..COEFFICIENTS {
        coefficients[place] = coefficient(&counts, &triangle, signs, place);
    }
    Laurent { coefficients }
}

/// The coefficient at a place: the sum of the terms of all kinds, each as often as there are states
/// of the kind.
fn coefficient(counts: &[u32], triangle: &Triangle, signs: Signs, place: usize) -> i128
    requires kinds { length counts.now ≡ KINDS }
    requires states { sum counts.now ≤ 2 ^ CROSSINGS }
    requires place { place < COEFFICIENTS }
    ensures { result ≡ counted_sum
        (kind_term signs.plus signs.minus (pos place -ℤ pos EXPONENT)) counts.now }
{
    let mut total = 0;
    'kinds: for kind in 0..counts.len() {
        total += times(counts[kind], term(triangle, signs, kind, place));
    }
    total
}

/// A term, as often as it is counted.
#[tactic(auto, using(crate::proofs::KindLemmas::times_within))]
fn times(count: u32, term: i128) -> i128
    requires count { count ≤ 2 ^ CROSSINGS }
    requires term { unsigned_abs term ≤ 2 ^ CIRCLES }
    ensures product { result ≡ pos count *ℤ term }
    ensures within { unsigned_abs result ≤ count * 2 ^ CIRCLES }
{
    i128::from(count) * term
}
