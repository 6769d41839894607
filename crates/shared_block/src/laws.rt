//! What the type of a block keeps, and what its dimensions are.

ghost use Rattle.std.specs.Prelude.{◌≡◌, ℕ, ◌<◌, ◌≤◌, ◌^◌, ℤ, List, length, true, IsTrue};
ghost use Rattle.kh_types.specs.Acceptance.{accepted};
ghost use Rattle.kh_types.specs.Code.{Code};
ghost use Rattle.kh_types.specs.Complex.{Pivot, alive_count, dimension_of, is_zero};
ghost use Rattle.kh_types.specs.History.{IsLegal, block, replay};
ghost use Rattle.kh_types.specs.Table.{dimension};
ghost use Rattle.kh_types.specs.declared.limits.TheConstants.{CROSSINGS};
ghost use Rattle.prime_field.specs.Residues.{IsField};
ghost use Rattle.shared_block.specs.BlockHistories.{HasLegalHistory};

use crate::SharedBlock;
use kh_types::laws::diagrams::diagram_laws;
use prime_field::PrimeField;

/// What the type of a block keeps. It does nothing: a function calls it, and its proof then has
/// these facts at hand.
pub fn block_laws<F: PrimeField>(block: &SharedBlock<F>)
    ensures code { IsTrue (accepted block.now.diagram) }
    ensures few { length block.now.diagram.crossings ≤ CROSSINGS }
    ensures legal { HasLegalHistory F.P block.now }
    ensures short { length block.now.history < 2 ^ 63 }
{
    diagram_laws(&block.diagram);
}

/// A block has the homology dimensions of its code at every degree, also outside of its own.
pub fn blocks_have_the_dimensions()
    ensures { (p : ℕ) (code : Code) (j i : ℤ)
        → dimension_of p (block p code j) i ≡ dimension p code i j }
{}

/// A block that a legal history leaves with no entry but zeros has as many places alive as its code
/// has dimensions.
pub fn finished_blocks_have_the_dimensions()
    ensures { (p : ℕ) (code : Code) (j i : ℤ) (history : List Pivot) → IsField p
        → IsTrue (accepted code) → IsLegal p (block p code j) history
        → is_zero (replay p (block p code j) history) ≡ true
        → alive_count (replay p (block p code j) history) i ≡ dimension p code i j }
{}
