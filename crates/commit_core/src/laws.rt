//! What the answers to events depend on, which states are reached, and which histories.

ghost use Rattle.std.specs.Prelude.{◌≡◌, ◌≢◌, ◌↔◌, ℕ, ◌+◌, ◌≤◌, ℤ, List, length, None, Some};
ghost use Rattle.std.specs.Prelude.{true, All, IfSome, IsTrue};
ghost use Rattle.std.specs.List.{Contains};
ghost use Rattle.kh_types.specs.Acceptance.{accepted};
ghost use Rattle.kh_types.specs.Code.{Code};
ghost use Rattle.kh_types.specs.Complex.{Pivot, dimension_of, is_zero};
ghost use Rattle.kh_types.specs.History.{IsLegal, block, replay};
ghost use Rattle.kh_types.specs.Table.{dimension};
ghost use Rattle.prime_field.specs.Residues.{IsField};
ghost use Rattle.cube_signs.specs.Blocks.{block_degrees};
ghost use Rattle.shared_block.specs.BlockHistories.{BlockCopy, BlockHistory, Fits, HasLegalHistory};
ghost use Rattle.shared_block.specs.BlockHistories.{complex_of};
ghost use Rattle.kh_types.specs.declared.limits.TheConstants.{WORKERS};
ghost use Rattle.shared_block.specs.AllBlocks.{AreBlocksOf};
ghost use Rattle.commit_core.specs.Alone.{looks_and_commits, state_with};
ghost use Rattle.commit_core.specs.Answering.{answers, turns};
ghost use Rattle.commit_core.specs.Rows.{ComesTo, IsCoreRun};
ghost use Rattle.commit_core.specs.States.{CoreState, IsHeldOf, block_at, held_by, holding_of};
ghost use Rattle.commit_core.specs.States.{opening_state, with_commit, with_held};
ghost use Rattle.commit_core.specs.declared.answer.Answer.{Answer};
ghost use Rattle.commit_core.specs.declared.event.Event.{Event};

use crate::Core;
use kh_types::laws::diagrams::diagram_laws;
use prime_field::PrimeField;
use prime_field::laws::element_laws;

/// What the type of a core keeps: the diagram is accepted, its blocks have legal histories and the
/// homology dimensions of the diagram, and what each worker holds was copied of what the first
/// pivots of its block's history left, as many as its version says. It does nothing: a function
/// calls it, and its proof then has these facts at hand.
pub fn core_laws<F: PrimeField>(core: &Core<F>)
    ensures code { IsTrue (accepted core.now.diagram) }
    ensures blocks { AreBlocksOf core.now.diagram core.now.blocks }
    ensures legal { All (HasLegalHistory F.P) core.now.blocks }
    ensures dimensions { All (λ held. (i : ℤ) → dimension_of F.P (complex_of F.P held) i
        ≡ dimension F.P core.now.diagram i held.degree) core.now.blocks }
    ensures held { All (λ held. IfSome held (IsHeldOf F.P core.now)) core.now.workers }
    ensures few { length core.now.workers ≤ WORKERS }
{
    element_laws::<F>();
    diagram_laws(&core.diagram);
}

/// The answers of a run from the opening state are a function of its events, one for each: of the
/// pivots that workers look at nothing depends.
pub fn answers_are_a_function_of_the_events()
    ensures count { (p workers : ℕ) (code : Code) (events : List Event)
        → length (answers p code workers events) ≡ length events }
    ensures answers { (p workers : ℕ) (code : Code) (events : List Event) (made : List Answer)
        (after : CoreState) → IsCoreRun p (opening_state code workers) events made after
        → made ≡ answers p code workers events }
{}

/// In each state that a run reaches, the history of each block is legal, the homology dimensions of
/// the blocks are those of the code, and what a worker holds was copied of what the first pivots of
/// its block's history left, as many as its version says.
pub fn runs_keep_legal_histories()
    ensures legal { (p workers : ℕ) (code : Code) (events : List Event) (made : List Answer)
        (after : CoreState) → IsCoreRun p (opening_state code workers) events made after
        → All (HasLegalHistory p) after.blocks }
    ensures dimensions { (p workers : ℕ) (code : Code) (events : List Event) (made : List Answer)
        (after : CoreState) → IsField p → IsTrue (accepted code)
        → IsCoreRun p (opening_state code workers) events made after
        → All (λ held. (i : ℤ) → dimension_of p (complex_of p held) i
        ≡ dimension p code i held.degree) after.blocks }
    ensures held { (p workers : ℕ) (code : Code) (events : List Event) (made : List Answer)
        (after : CoreState) → IsCoreRun p (opening_state code workers) events made after
        → All (λ held. IfSome held (IsHeldOf p after)) after.workers }
{}

/// A legal history leads to a block of zeros exactly where it has as many pivots as all ranks of
/// the block's differentials together.
pub fn zero_is_by_the_ranks()
    ensures { (p : ℕ) (code : Code) (j : ℤ) (history : List Pivot) → IsField p
        → IsTrue (accepted code) → IsLegal p (block p code j) history
        → (is_zero (replay p (block p code j) history) ≡ true)
        ↔ (length history ≡ turns p code j) }
{}

/// Each legal history of a block is that of a run: worker 1 looks at the block and commits, once
/// for each pivot, and nothing else happens.
pub fn histories_are_runs()
    ensures { (p : ℕ) (code : Code) (workers : ℕ) (j : ℤ) (history : List Pivot) → IsField p
        → IsTrue (accepted code) → 1 ≤ workers → Contains (block_degrees code) j
        → IsLegal p (block p code j) history
        → (made : List Answer) × IsCoreRun p (opening_state code workers)
        (looks_and_commits 1 j (length history)) made (state_with code workers j history) }
{}

/// All events have a run from the opening state, so that the answers to them are those of a run.
pub fn all_events_have_a_run()
    ensures { (p workers : ℕ) (code : Code) (events : List Event) → IsField p
        → IsTrue (accepted code) → (made : List Answer) × (after : CoreState)
        × IsCoreRun p (opening_state code workers) events made after }
{}

/// The turns that a worker takes at a block under a lock are those of the core, whichever worker
/// and block it is and whatever the others hold. A look that fits the history is the core's look at
/// the block with this history, and where nothing is left to do under the lock the core answers
/// that the block is zero. A commit of a look at the history as it is now is taken, and one of a
/// look at another length is stale, with both lengths.
pub fn turns_under_a_lock_are_those_of_the_core()
    ensures look { (p worker hint : ℕ) (state : CoreState) (j : ℤ) (held : BlockHistory)
        (copy : BlockCopy) → IsField p → IsTrue (accepted held.diagram)
        → block_at state j ≡ Some held → Fits p held copy
        → ComesTo p state (Event.Look worker j hint) (Answer.Looked (length held.history))
        (with_held state worker (Some (holding_of j copy))) }
    ensures zero { (p worker hint : ℕ) (state : CoreState) (j : ℤ) (held : BlockHistory)
        → IsField p → IsTrue (accepted held.diagram) → block_at state j ≡ Some held
        → HasLegalHistory p held → is_zero (complex_of p held) ≡ true
        → ComesTo p state (Event.Look worker j hint) Answer.Zero (with_held state worker None) }
    ensures commit { (p worker : ℕ) (state : CoreState) (j : ℤ) (held : BlockHistory)
        (copy : BlockCopy) → block_at state j ≡ Some held
        → held_by state worker ≡ Some (holding_of j copy) → copy.version ≡ length held.history
        → ComesTo p state (Event.Commit worker) (Answer.Committed (length held.history + 1))
        (with_held (with_commit state j copy.parts.pivot) worker None) }
    ensures stale { (p worker : ℕ) (state : CoreState) (j : ℤ) (held : BlockHistory)
        (copy : BlockCopy) → block_at state j ≡ Some held
        → held_by state worker ≡ Some (holding_of j copy) → copy.version ≢ length held.history
        → ComesTo p state (Event.Commit worker)
        (Answer.Stale copy.version (length held.history)) (with_held state worker None) }
{}
