//! A block with its history.

ghost use Rattle.std.specs.Prelude.{◌≡◌, ◌↔◌, ◌+◌, ◌<◌, ◌≤◌, ◌^◌, length, None, true, IfOk, IfSome, IsTrue};
ghost use Rattle.kh_types.specs.Acceptance.{accepted};
ghost use Rattle.kh_types.specs.Complex.{is_zero};
ghost use Rattle.kh_types.specs.Table.{dimension};
ghost use Rattle.cancel_step.specs.Foreign.{IsForeign};
ghost use Rattle.sparse_block.specs.Complexes.{live_places};
ghost use Rattle.shared_block.specs.BlockHistories.{HasLegalHistory, IsCopyOf, complex_of};
ghost use Rattle.shared_block.specs.Commits.{Answers, IsForeignAnswer, IsOld, IsStale};
ghost use Rattle.shared_block.specs.Commits.{with_pivot};

use crate::building::live_places;
use crate::{BlockLook, BlockPatch, CommitAnswer};
use cancel_step::{Foreign, apply, apply_fitting, copy, find};
use kh_types::{Diagram, NoMemory};
use prime_field::PrimeField;
use prime_field::laws::element_laws;
use sparse_block::{Complex, Pivot};
use std::alloc::Global;
use std::marker::Model;

/// The block of a diagram's cube at a quantum degree, with the pivots that were cancelled in it.
/// Contracts see a `BlockHistory`: diagram, degree and history, which determine the complex.
#[derive(Drop)]
pub struct SharedBlock<F: PrimeField> {
    pub(crate) diagram: Diagram,
    pub(crate) degree: i16,
    pub(crate) history: Vec<Pivot>,
    pub(crate) complex: Complex<F>,
}

impl<F: PrimeField> Model for SharedBlock<F> {
    ghost use Rattle.std.specs.Prelude.{vec_capacity};
    ghost use Rattle.shared_block.specs.BlockHistories.{BlockHistory, IsKeptBlock, block_with};

    ghost Value = { BlockHistory };

    ghost view = { λ held. block_with held.diagram held.degree held.history.items };

    ghost invariant = { λ held. IsKeptBlock F.P (block_with held.diagram held.degree held.history.items)
        (vec_capacity held.history) held.complex.complex };
}

impl<F: PrimeField> SharedBlock<F> {
    /// The length of the history.
    pub fn version(&self) -> u64
        ensures version { result ≡ length self.now.history }
        ensures short { result < 2 ^ 63 }
    {
        self.history.len() as u64
    }

    /// The diagram.
    pub fn diagram(&self) -> &Diagram
        ensures { result.now ≡ self.now.diagram }
    {
        &self.diagram
    }

    /// The quantum degree.
    pub fn degree(&self) -> i16
        ensures { result ≡ self.now.degree }
    {
        self.degree
    }

    /// The pivots that were cancelled, the first at place 0.
    pub fn history(&self) -> &[Pivot]
        ensures { result.now ≡ self.now.history }
    {
        &self.history
    }

    /// Copies what the cancellation of some pivot reads and changes of the pivot's own matrix;
    /// `None` exactly where the complex is zero. The hint may say where to search; no clause reads
    /// it.
    pub fn look(&self, alloc: Global, hint: u32) -> Result<Option<BlockLook<F>>, NoMemory>
        ensures none { IfOk result (λ found.
            (found ≡ None) ↔ (is_zero (complex_of F.P self.now) ≡ true)) }
        ensures look { IfOk result (λ found. IfSome found (IsCopyOf F.P self.now)) }
    {
        match find(&self.complex, hint) {
            Some(found) => Ok(Some(BlockLook {
                version: self.version(),
                hint: found.hint,
                look: copy(alloc, &self.complex, found.pivot)?,
            })),
            None => Ok(None),
        }
    }

    /// Cancels the pivot of a patch, where the patch is of a look at this version and the columns
    /// and rows that it copied are those of the block. It takes no memory.
    pub fn commit(&mut self, patch: BlockPatch<F>) -> CommitAnswer
        ensures stale { IsStale result ↔ IsOld self.old patch }
        ensures foreign { IsForeignAnswer result ↔ ((patch.version ≡ length self.old.history)
            × IsForeign patch.parts (complex_of F.P self.old)) }
        ensures answer { Answers F.P self.old patch result self.new }
    {
        element_laws::<F>();
        let now = self.version();
        if patch.version != now {
            return CommitAnswer::Stale {
                looked: patch.version,
                now,
            };
        }
        let pivot = patch.patch.pivot();
        match apply(&mut self.complex, patch.patch) {
            Ok(()) => {
                self.history.push_reserved(pivot);
                CommitAnswer::Committed { version: now + 1 }
            }
            Err(Foreign { degree, column }) => CommitAnswer::Foreign { degree, column },
        }
    }

    /// Cancels the pivot of a patch of a look at the block as it is, which is not compared again.
    /// It takes no memory.
    pub(crate) fn take_fitting(&mut self, patch: BlockPatch<F>)
        requires { IsCopyOf F.P self.old patch }
        ensures { self.new ≡ with_pivot self.old patch.parts.pivot }
    {
        element_laws::<F>();
        let pivot = patch.patch.pivot();
        apply_fitting(&mut self.complex, patch.patch);
        self.history.push_reserved(pivot);
    }

    /// The complex that the history leaves.
    pub(crate) fn complex(&self) -> &Complex<F>
        ensures { result.now.complex ≡ complex_of F.P self.now }
    {
        &self.complex
    }

    /// How many generators are alive.
    pub fn alive(&self) -> usize
        ensures { result ≡ live_places (complex_of F.P self.now) }
    {
        live_places(&self.complex)
    }

    /// Whether all entries of the complex are zero.
    pub fn is_zero(&self) -> bool
        ensures { result ≡ is_zero (complex_of F.P self.now) }
    {
        self.complex.is_zero()
    }

    /// The homology dimension at a homological degree, once the complex is zero; 0 outside of the
    /// block.
    pub fn dim(&self, i: i16) -> u32
        requires { is_zero (complex_of F.P self.now) ≡ true }
        ensures { result ≡ dimension F.P self.now.diagram i self.now.degree }
    {
        element_laws::<F>();
        self.complex.alive(i)
    }
}
