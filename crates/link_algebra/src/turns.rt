//! Diagrams whose crossings are turned: the mirror and the reversal.

ghost use Rattle.std.specs.Prelude.{◌≡◌, ◌<◌, ◌≤◌, ℕ, ℤ, neg_ℤ, length, map, not};
ghost use Rattle.kh_types.specs.Code.{IsCrossing};
ghost use Rattle.kh_types.specs.StateSum.{state_sum};
ghost use Rattle.kh_types.specs.Table.{dimension};
ghost use Rattle.kh_types.specs.declared.limits.TheConstants.{CROSSINGS};
ghost use Rattle.prime_field.specs.Residues.{IsSmallPrime};
ghost use Rattle.link_algebra.specs.Mirrors.{mirror_of, mirror_parts, mirror_slots, over_slot, reversal_of, reversal_parts};

use crate::slots::slots_from;
use arrayvec::ArrayVec;
use kh_types::laws::diagrams::diagram_laws;
use kh_types::{CROSSINGS, Crossing, Diagram};
use orient_arcs::{Parts, renumber};

/// The mirror of a diagram: every under pass becomes the over pass, and each crossing has the
/// opposite sign. Its homology is that of the diagram at the opposite degrees. Source: Khovanov
/// 2000; the numbers of arcs are this project's rule.
pub fn mirror(diagram: &Diagram) -> Diagram
    ensures code { result ≡ mirror_of diagram.now }
    ensures dimensions { (p : ℕ) → IsSmallPrime p → (i j : ℤ)
        → dimension p result (neg_ℤ i) (neg_ℤ j) ≡ dimension p diagram.now i j }
    ensures sum { (exponent : ℤ) → state_sum result (neg_ℤ exponent) ≡ state_sum diagram.now exponent }
{
    diagram_laws(diagram);
    Diagram::of_accepted(&renumber(&mirror_parts(diagram)))
}

/// The reversal of a diagram: every component goes the other way, and each crossing keeps its sign,
/// so that the homology stays.
pub fn reverse(diagram: &Diagram) -> Diagram
    ensures code { result ≡ reversal_of diagram.now }
    ensures dimensions { (p : ℕ) → IsSmallPrime p → (i j : ℤ)
        → dimension p result i j ≡ dimension p diagram.now i j }
    ensures sum { (exponent : ℤ) → state_sum result exponent ≡ state_sum diagram.now exponent }
{
    diagram_laws(diagram);
    Diagram::of_accepted(&renumber(&reversal_parts(diagram)))
}

/// The crossings of the mirror over the arcs of the diagram, each with the opposite sign.
#[tactic(auto, using(crate::proofs::PartLemmas::signs_listed))]
fn mirror_parts(diagram: &Diagram) -> Parts
    ensures { result ≡ mirror_parts diagram.now }
{
    let signs = diagram.signs();
    Parts {
        crossings: mirror_crossings(diagram),
        positive: opposite(&signs),
        loops: diagram.loops(),
    }
}

#[tactic(auto, using(kh_types::proofs::Ranges::range_steps))]
fn mirror_crossings(diagram: &Diagram) -> ArrayVec<Crossing, CROSSINGS>
    ensures { result.items ≡ (mirror_parts diagram.now).crossings }
{
    let mut crossings = ArrayVec::new();
    'places: for place in 0..diagram.count() {
        crossings.push(mirror_slots(diagram, place + 1));
    }
    crossings
}

/// A crossing of the mirror.
fn mirror_slots(diagram: &Diagram, crossing: u8) -> Crossing
    requires { IsCrossing diagram.now.crossings crossing }
    ensures { result ≡ mirror_slots diagram.now.crossings crossing }
{
    slots_from(diagram, crossing, over_slot(diagram.sign(crossing) > 0))
}

/// The slot where the over pass of a crossing comes in.
fn over_slot(is_positive: bool) -> u8
    ensures slot { result ≡ over_slot is_positive }
    ensures within { result < 4 }
{
    if is_positive { 3 } else { 1 }
}

/// The opposite signs.
#[tactic(auto, using(orient_arcs::proofs::StepLemmas::map_take_more))]
fn opposite(signs: &[bool]) -> ArrayVec<bool, CROSSINGS>
    requires { length signs.now ≤ CROSSINGS }
    ensures { result.items ≡ map not signs.now }
{
    let mut opposite = ArrayVec::new();
    'signs: for sign in signs {
        opposite.push(!*sign);
    }
    opposite
}

/// The crossings of the reversal over the arcs of the diagram, each with its sign.
#[tactic(auto, using(crate::proofs::PartLemmas::signs_listed))]
fn reversal_parts(diagram: &Diagram) -> Parts
    ensures { result ≡ reversal_parts diagram.now }
{
    Parts {
        crossings: reversal_crossings(diagram),
        positive: diagram.signs(),
        loops: diagram.loops(),
    }
}

#[tactic(auto, using(kh_types::proofs::Ranges::range_steps))]
fn reversal_crossings(diagram: &Diagram) -> ArrayVec<Crossing, CROSSINGS>
    ensures { result.items ≡ (reversal_parts diagram.now).crossings }
{
    let mut crossings = ArrayVec::new();
    'places: for place in 0..diagram.count() {
        crossings.push(slots_from(diagram, place + 1, 2));
    }
    crossings
}
