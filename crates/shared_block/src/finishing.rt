//! All cancellations that are left.

ghost use Rattle.std.specs.Prelude.{◌≡◌, ◌↔◌, None, true, false, IfOk, IfSome, OnErr, OnOk};
ghost use mathlib.Core.List.{IsPrefix};
ghost use Rattle.kh_types.specs.Complex.{IsPivot, is_zero};
ghost use Rattle.shared_block.specs.BlockHistories.{complex_of};
ghost use Rattle.shared_block.specs.Commits.{is_pivot, with_pivot};

use crate::SharedBlock;
use crate::laws::block_laws;
use crate::pivots::is_pivot;
use cancel_step::{Found, cancel_with, find};
use kh_types::NoMemory;
use prime_field::PrimeField;
use prime_field::laws::element_laws;
use sparse_block::{Entry, Pivot};
use std::alloc::Global;

impl<F: PrimeField> SharedBlock<F> {
    /// Cancels until the complex is zero; each pivot enters the history. Where memory runs out,
    /// some cancellations have been done.
    pub fn finish(&mut self, alloc: Global) -> Result<(), NoMemory>
        ensures zero { OnOk result (is_zero (complex_of F.P self.new) ≡ true) }
        ensures history { IsPrefix self.old.history self.new.history }
        ensures diagram { self.new.diagram ≡ self.old.diagram }
        ensures degree { self.new.degree ≡ self.old.degree }
    {
        element_laws::<F>();
        block_laws(self);
        let mut scratch = Vec::new(alloc);
        let mut hint = 0;
        'turns: while let Some(found) = self.next(hint) {
            block_laws(self);
            hint = found.hint;
            self.cancel(&mut scratch, found.pivot)?;
        }
        Ok(())
    }

    /// A pivot that may be cancelled next; `None` exactly where the complex is zero.
    fn next(&self, hint: u32) -> Option<Found>
        ensures none { (result ≡ None) ↔ (is_zero (complex_of F.P self.now) ≡ true) }
        ensures pivot { IfSome result (λ found. IsPivot (complex_of F.P self.now) found.pivot) }
    {
        find(&self.complex, hint)
    }

    /// Cancels a pivot that others name, where it is an entry other than zero, and answers whether
    /// it is; else the block is unchanged, and where memory runs out. Many calls can share the
    /// list in which lines are made. It takes memory by that list's allocator.
    #[tactic(auto, using(crate::proofs::PivotTests::passing))]
    pub fn cancel_at(&mut self, scratch: &mut Vec<Entry>, pivot: Pivot) -> Result<bool, NoMemory>
        ensures taken { IfOk result (λ taken. taken ≡ is_pivot (complex_of F.P self.old) pivot) }
        ensures cancelled { IfOk result (λ taken.
            taken ≡ true → self.new ≡ with_pivot self.old pivot) }
        ensures same { IfOk result (λ taken. taken ≡ false → self.new ≡ self.old) }
        ensures unchanged { OnErr result (self.new ≡ self.old) }
    {
        if !self.has(pivot) {
            return Ok(false);
        }
        self.cancel(scratch, pivot)?;
        Ok(true)
    }

    /// Whether a pivot is an entry other than zero.
    fn has(&self, pivot: Pivot) -> bool
        ensures { result ≡ is_pivot (complex_of F.P self.now) pivot }
    {
        is_pivot(&self.complex, pivot)
    }

    /// Cancels a pivot, which enters the history, with memory in which lines are made. The block is
    /// unchanged where memory runs out.
    fn cancel(&mut self, scratch: &mut Vec<Entry>, pivot: Pivot) -> Result<(), NoMemory>
        requires { IsPivot (complex_of F.P self.old) pivot }
        ensures ok { OnOk result (self.new ≡ with_pivot self.old pivot) }
        ensures unchanged { OnErr result (self.new ≡ self.old) }
    {
        element_laws::<F>();
        cancel_with(scratch, &mut self.complex, pivot)?;
        self.history.push_reserved(pivot);
        Ok(())
    }
}
