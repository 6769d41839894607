//! The disjoint union of two diagrams.

ghost use Rattle.std.specs.Prelude.{◌≡◌, ◌↔◌, ◌≤◌, ℤ, Err, IfOk};
ghost use Rattle.kh_types.specs.StateSum.{state_sum};
ghost use Rattle.kh_types.specs.declared.limits.TheConstants.{CROSSINGS, EXPONENT, LOOPS};
ghost use Rattle.link_algebra.specs.Unions.{IsUnionFault, crossings_together, loops_together, product_coefficient, union_of};

use crate::fault::UnionFault;
use crate::slots::raised_slots;
use kh_types::{CROSSINGS, Diagram, LOOPS, RawCode};

/// The disjoint union of two diagrams: the crossings of the first, then those of the second with
/// their arcs behind those of the first. Its state sum is the product of the two. Source: Khovanov
/// 2000; the order and the limits are this project's rule.
pub fn union(first: &Diagram, second: &Diagram) -> Result<Diagram, UnionFault>
    ensures fault { (fault : UnionFault) → (result ≡ Err fault) ↔ IsUnionFault first.now second.now fault }
    ensures code { IfOk result (λ diagram. diagram ≡ union_of first.now second.now) }
    ensures sum { IfOk result (λ diagram. (exponent : ℤ) → state_sum diagram exponent
        ≡ product_coefficient EXPONENT (state_sum first.now) (state_sum second.now) exponent) }
{
    let (_first, _second) = (first.crossings(), second.crossings());
    let crossings = first.count() + second.count();
    let loops = first.loops() + second.loops();
    if usize::from(crossings) > CROSSINGS {
        Err(UnionFault::Crossings { count: crossings })
    } else if usize::from(loops) > LOOPS {
        Err(UnionFault::Loops { count: loops })
    } else {
        Ok(united(first, second))
    }
}

/// The union, where it is not too large.
fn united(first: &Diagram, second: &Diagram) -> Diagram
    requires crossings { crossings_together first.now second.now ≤ CROSSINGS }
    requires loops { loops_together first.now second.now ≤ LOOPS }
    ensures { result ≡ union_of first.now second.now }
{
    let (_first, _second) = (first.crossings(), second.crossings());
    Diagram::of_accepted(&raw_union(first, second))
}

#[tactic(auto, using(crate::proofs::PartLemmas::union_more))]
fn raw_union(first: &Diagram, second: &Diagram) -> RawCode
    requires crossings { crossings_together first.now second.now ≤ CROSSINGS }
    requires loops { loops_together first.now second.now ≤ LOOPS }
    ensures { result ≡ union_of first.now second.now }
{
    let mut crossings = first.to_raw().crossings;
    let arcs = 2 * first.count();
    'places: for place in 0..second.count() {
        crossings.push(raised_slots(second, place + 1, arcs));
    }
    RawCode {
        crossings,
        loops: first.loops() + second.loops(),
    }
}
