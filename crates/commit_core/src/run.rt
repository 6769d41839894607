//! Runs: all events, one after another, and then the table.

ghost use Rattle.std.specs.Prelude.{◌≡◌, ◌≤◌, length, All, IfOk};
ghost use Rattle.circle_smoothing.specs.GeneratorCounts.{generator_count};
ghost use Rattle.circle_smoothing.specs.declared.limits.TheConstants.{GENERATORS};
ghost use Rattle.kh_types.specs.Table.{table};
ghost use Rattle.kh_types.specs.declared.limits.TheConstants.{WORKERS};
ghost use Rattle.commit_core.specs.Answering.{answers};
ghost use Rattle.commit_core.specs.Rows.{IsCoreRun};
ghost use Rattle.commit_core.specs.States.{event_worker};

use crate::{Answer, Core, Event};
use homology_tables::Table;
use kh_types::{Diagram, NoMemory};
use prime_field::PrimeField;
use shared_block::table_laws::blocks_stay_those_of_their_diagram;
use shared_block::{finish_all, table_of};
use std::alloc::Global;

/// What a run comes to: the answers to all events in order, and the homology table.
#[derive(Drop)]
pub struct Run {
    pub answers: Vec<Answer>,
    pub table: Table,
}

/// Carries out events on the blocks of a diagram, with so many workers; then each block is
/// cancelled to zero, which gives the table.
pub fn run_events<F: PrimeField>(
    alloc: Global,
    diagram: &Diagram,
    workers: u32,
    events: &[Event],
) -> Result<Run, NoMemory>
    requires size { generator_count diagram.now ≤ GENERATORS }
    requires workers { (1 ≤ workers) × (workers ≤ WORKERS) }
    requires events { All (λ event. (1 ≤ event_worker event) × (event_worker event ≤ workers))
        events.now }
    ensures answers { IfOk result (λ run.
        run.answers.items ≡ answers F.P diagram.now workers events.now) }
    ensures table { IfOk result (λ run. run.table ≡ table F.P diagram.now) }
{
    let mut core = Core::<F>::new(alloc, diagram, workers)?;
    let answers = core.run(alloc, events)?;
    let table = core.finish(alloc)?;
    Ok(Run { answers, table })
}

impl<F: PrimeField> Core<F> {
    /// The answers to events, one after another. Where memory runs out, some have taken place.
    fn run(&mut self, alloc: Global, events: &[Event]) -> Result<Vec<Answer>, NoMemory>
        requires { All (λ event. (1 ≤ event_worker event)
            × (event_worker event ≤ length self.old.workers)) events.now }
        ensures { IfOk result (λ made. IsCoreRun F.P self.old events.now made.items self.new) }
    {
        let mut answers = Vec::with_capacity(alloc, events.len())?;
        'events: for event in events {
            answers.push(self.step(alloc, *event)?)?;
        }
        Ok(answers)
    }

    /// The table, once each block is cancelled to zero.
    fn finish(self, alloc: Global) -> Result<Table, NoMemory>
        requires { generator_count self.diagram ≤ GENERATORS }
        ensures { IfOk result (λ made. made ≡ table F.P self.diagram) }
    {
        blocks_stay_those_of_their_diagram();
        let mut blocks = self.blocks;
        finish_all(alloc, &mut blocks)?;
        table_of(alloc, &self.diagram, &blocks)
    }
}
