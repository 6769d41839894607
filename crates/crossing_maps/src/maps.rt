//! What maps become after a crossing, and saddles: the maps between the new objects of a scan.

ghost use Rattle.std.specs.Prelude.{◌≡◌, ℕ, List, IfOk};
ghost use Rattle.kh_types.specs.Code.{Code};
ghost use Rattle.tangle_maps.specs.Sums.{AreReduced};
ghost use Rattle.crossing_maps.specs.AddedSeams.{ArePairs};
ghost use Rattle.crossing_maps.specs.Bridges.{CanLabel, IsAddedBridge, IsSaddleBridge};
ghost use Rattle.crossing_maps.specs.NewTerms.{AreAddedTerms, AreSaddleTerms};

use crate::bridges::Bridge;
use crate::seams::Labels;
use crate::terms::{add_map, add_saddle};
use dotted_maps::term::Term;
use kh_types::NoMemory;
use prime_field::PrimeField;
use prime_field::laws::element_laws;
use smallvec::SmallVec;
use std::alloc::Global;
use tangle_maps::Terms;

/// What a map becomes after a crossing, by the bridge between two sides with one smoothing and
/// labels of the circles that are closed on either side.
/// Source: Bar-Natan 2007.
pub fn added_map<F: PrimeField>(
    alloc: Global,
    bridge: &mut Bridge,
    labels: Labels,
    old: &[Term],
) -> Result<Terms, NoMemory>
    requires labels { CanLabel bridge.old }
    requires old { AreReduced F.P old.now }
    ensures same { bridge.new ≡ bridge.old }
    ensures reduced { IfOk result (λ made. AreReduced F.P made.items) }
    ensures terms { (code : Code) (k smoothing : ℕ) (m n : List (ℕ × ℕ)) → ArePairs code k m n
        → IsAddedBridge code k smoothing smoothing m n bridge.old
        → IfOk result (λ made. AreAddedTerms F.P code k smoothing m n labels.before labels.behind
        old.now made.items) }
{
    element_laws::<F>();
    let marks = bridge.marks(labels);
    let mut made: Terms = SmallVec::new(alloc);
    add_map::<F>(&mut made, &mut bridge.seam, marks, old, F::of(1))?;
    Ok(made)
}

/// The saddle of a pairing at a crossing, from its 0-smoothing to its 1-smoothing, times a sign, by
/// its bridge and labels of the circles that are closed on either side.
/// Source: Bar-Natan 2007.
pub fn saddle_map<F: PrimeField>(
    alloc: Global,
    bridge: &mut Bridge,
    labels: Labels,
    sign: F,
) -> Result<Terms, NoMemory>
    requires labels { CanLabel bridge.old }
    ensures same { bridge.new ≡ bridge.old }
    ensures reduced { IfOk result (λ made. AreReduced F.P made.items) }
    ensures terms { (code : Code) (k : ℕ) (m : List (ℕ × ℕ)) → ArePairs code k m m
        → IsSaddleBridge code k m bridge.old
        → IfOk result (λ made. AreSaddleTerms F.P (F.value_of sign) code k m labels.before
        labels.behind made.items) }
{
    element_laws::<F>();
    let marks = bridge.marks(labels);
    let mut made: Terms = SmallVec::new(alloc);
    add_saddle(&mut made, &mut bridge.seam, marks, sign)?;
    Ok(made)
}
