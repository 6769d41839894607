//! The core: all blocks of a cube, and what each worker holds.

ghost use Rattle.std.specs.Prelude.{◌≡◌, ◌⊎◌, ◌≤◌, length, None, IfErr, IfOk, IfSome};
ghost use Rattle.circle_smoothing.specs.GeneratorCounts.{generator_count};
ghost use Rattle.circle_smoothing.specs.declared.limits.TheConstants.{GENERATORS};
ghost use Rattle.kh_types.specs.declared.limits.TheConstants.{WORKERS};
ghost use Rattle.commit_core.specs.Rows.{Commits, Forgets, ComesTo, LooksAt};
ghost use Rattle.commit_core.specs.States.{IsHeldOf, event_worker, held_by, opening_state};
ghost use Rattle.commit_core.specs.States.{with_held};

use crate::building::nothing_held;
use crate::held_look::HeldLook;
use crate::{Answer, Event};
use kh_types::{Diagram, NoMemory};
use prime_field::PrimeField;
use shared_block::{SharedBlock, blocks_of};
use std::alloc::Global;
use std::marker::Model;

/// All blocks of a diagram's cube with their histories, and what each worker holds. Contracts see a
/// `CoreState`. Its type keeps what `core_laws` tells.
#[derive(Drop)]
pub struct Core<F: PrimeField> {
    pub(crate) diagram: Diagram,
    pub(crate) blocks: Vec<SharedBlock<F>>,
    pub(crate) workers: Vec<Option<HeldLook<F>>>,
}

impl<F: PrimeField> Model for Core<F> {
    ghost use Rattle.std.specs.Prelude.{◌≤◌, length};
    ghost use Rattle.kh_types.specs.declared.limits.TheConstants.{WORKERS};
    ghost use Rattle.commit_core.specs.States.{IsSound, CoreState, state_of};

    ghost Value = { CoreState };

    ghost view = { λ core. state_of core.diagram core.blocks.items core.workers.items };

    ghost invariant = { λ core.
        IsSound F.P (state_of core.diagram core.blocks.items core.workers.items)
        × (length core.workers.items ≤ WORKERS) };
}

impl<F: PrimeField> Core<F> {
    /// The core at first: all blocks as the cube has them, and no worker holds anything.
    pub fn new(alloc: Global, diagram: &Diagram, workers: u32) -> Result<Core<F>, NoMemory>
        requires size { generator_count diagram.now ≤ GENERATORS }
        requires workers { (1 ≤ workers) × (workers ≤ WORKERS) }
        ensures { IfOk result (λ core. core ≡ opening_state diagram.now workers) }
    {
        let blocks = blocks_of(alloc, diagram)?;
        let workers = nothing_held(alloc, workers)?;
        Ok(Core {
            diagram: *diagram,
            blocks,
            workers,
        })
    }

    /// What an event comes to. Where memory runs out nothing changes, but that the worker may have
    /// lost what it held.
    pub fn step(&mut self, alloc: Global, event: Event) -> Result<Answer, NoMemory>
        requires { (1 ≤ event_worker event) × (event_worker event ≤ length self.old.workers) }
        ensures row { IfOk result (λ answer. ComesTo F.P self.old event answer self.new) }
        ensures memory { IfErr result (λ _. (self.new ≡ self.old)
            ⊎ (self.new ≡ with_held self.old (event_worker event) None)) }
    {
        match event {
            Event::Look {
                worker,
                block,
                hint,
            } => self.look(alloc, worker, block, hint),
            Event::Commit { worker } => self.commit(alloc, worker),
            Event::Forget { worker } => Ok(self.forget(worker)),
        }
    }

    /// A worker gives up what it holds, and looks at the block at a quantum degree.
    fn look(
        &mut self,
        alloc: Global,
        worker: u32,
        block: i16,
        hint: u32,
    ) -> Result<Answer, NoMemory>
        requires { (1 ≤ worker) × (worker ≤ length self.old.workers) }
        ensures row { IfOk result (λ answer. LooksAt F.P self.old worker block answer self.new) }
        ensures memory { IfErr result (λ _. self.new ≡ with_held self.old worker None) }
    {
        self.hold(worker, None);
        match self.sight(alloc, block, hint)? {
            None => Ok(Answer::NoBlock),
            Some(None) => Ok(Answer::Zero),
            Some(Some(look)) => {
                let version = look.version();
                self.hold(worker, Some(HeldLook { block, look }));
                Ok(Answer::Looked { version })
            }
        }
    }

    /// A worker commits what it holds.
    fn commit(&mut self, alloc: Global, worker: u32) -> Result<Answer, NoMemory>
        requires { (1 ≤ worker) × (worker ≤ length self.old.workers) }
        ensures row { IfOk result (λ answer. Commits self.old worker answer self.new) }
        ensures memory { IfErr result (λ _. self.new ≡ with_held self.old worker None) }
    {
        let Some(held) = self.take(worker) else {
            return Ok(Answer::Idle);
        };
        let block = held.block;
        let patch = held.look.patch(alloc)?;
        Ok(self.commit_to(block, patch))
    }

    /// A worker gives up what it holds.
    fn forget(&mut self, worker: u32) -> Answer
        requires { (1 ≤ worker) × (worker ≤ length self.old.workers) }
        ensures { Forgets self.old worker result self.new }
    {
        match self.take(worker) {
            Some(_) => Answer::Forgot,
            None => Answer::Idle,
        }
    }

    /// The worker holds this from now on.
    fn hold(&mut self, worker: u32, held: Option<HeldLook<F>>)
        requires worker { (1 ≤ worker) × (worker ≤ length self.old.workers) }
        requires held { IfSome held (IsHeldOf F.P self.old) }
        ensures { self.new ≡ with_held self.old worker held }
    {
        self.workers[(worker - 1) as usize] = held;
    }

    /// What the worker holds; from now on it holds nothing.
    fn take(&mut self, worker: u32) -> Option<HeldLook<F>>
        requires { (1 ≤ worker) × (worker ≤ length self.old.workers) }
        ensures held { result ≡ held_by self.old worker }
        ensures left { self.new ≡ with_held self.old worker None }
        ensures sound { IfSome result (IsHeldOf F.P self.new) }
    {
        self.workers[(worker - 1) as usize].take()
    }
}
