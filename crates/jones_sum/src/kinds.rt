//! How many states there are of each kind.

ghost use Rattle.std.specs.Prelude.{◌≡◌, ℤ, ◌^◌, ◌≤◌, length};
ghost use Rattle.std.specs.List.{sum};
ghost use Rattle.kh_types.specs.declared.limits.TheConstants.{CROSSINGS};
ghost use Rattle.kh_types.specs.Directions.{plus_count, minus_count};
ghost use Rattle.kh_types.specs.StateSum.{state_sum};
ghost use Rattle.circle_smoothing.specs.declared.kinds.TheConstants.{KINDS};
ghost use Rattle.jones_sum.specs.Kinds.{counted_sum, kind_term};

use circle_smoothing::{COLUMNS, CountedDiagram, KINDS};
use kh_types::laws::diagrams::diagram_laws;

/// The number of states of each kind. So the state sum is the sum of the terms of all kinds, each
/// as often as it is counted.
pub fn state_counts(counted: &CountedDiagram) -> [u32; KINDS]
    ensures sums { (exponent : ℤ) → counted_sum (kind_term
        (plus_count counted.now.crossings) (minus_count counted.now.crossings) exponent) result
        ≡ state_sum counted.now exponent }
    ensures all { sum result ≤ 2 ^ CROSSINGS }
    ensures kinds { length result ≡ KINDS }
{
    diagram_laws(counted.diagram());
    let mut counts = [0; KINDS];
    'kinds: for kind in 0..KINDS {
        counts[kind] = counted.count(kind / COLUMNS, kind % COLUMNS);
    }
    counts
}
