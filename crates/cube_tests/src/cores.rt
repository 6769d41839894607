//! Worked runs, and all interleavings of two workers against the table of the core, written plainly
//! over numbers.

use commit_core::{Answer, Event, Run, are_of_workers, run_events};
use cube_signs::check_size;
use homology_tables::Row;
use kh_types::NoMemory;
use known_links::{HOPF, TREFOIL, diagram_of};
use prime_field::{F2, F3, F5, F7, PrimeField};
use std::alloc::Global;
use std::process::Abort;
use std::test::Fail;

/// The quantum degrees of the Hopf link's blocks, and how many turns each takes: half of what its
/// generators, counted by hand, are more than its dimensions (Knot Atlas, "L2a1").
const BLOCKS: [(i16, u64); 4] = [(-6, 0), (-4, 2), (-2, 2), (0, 0)];

fn look(worker: u32, block: i16) -> Event {
    let hint = 0;
    Event::Look {
        worker,
        block,
        hint,
    }
}

fn commit(worker: u32) -> Event {
    Event::Commit { worker }
}

fn forget(worker: u32) -> Event {
    Event::Forget { worker }
}

fn looked(version: u64) -> Answer {
    Answer::Looked { version }
}

fn committed(version: u64) -> Answer {
    Answer::Committed { version }
}

fn stale(looked: u64, now: u64) -> Answer {
    Answer::Stale { looked, now }
}

#[test]
fn a_patch_of_an_earlier_look_is_stale(rt: HostRuntime) -> Result<(), Fail> {
    let events = [
        (look(1, -2), looked(0)),
        (look(2, -2), looked(0)),
        (commit(1), committed(1)),
        (commit(2), stale(0, 1)),
        (look(2, -2), looked(1)),
        (commit(2), committed(2)),
        (look(1, -2), Answer::Zero),
    ];
    check_run(&rt, rt.alloc(), HOPF, &[2, 3, 5, 7], &events)
}

#[test]
fn workers_may_have_nothing_to_do(rt: HostRuntime) -> Result<(), Fail> {
    let events = [
        (commit(1), Answer::Idle),
        (look(1, -3), Answer::NoBlock),
        (look(1, 0), Answer::Zero),
        (forget(1), Answer::Idle),
        (look(64, -4), looked(0)),
        (look(64, -3), Answer::NoBlock),
        (forget(64), Answer::Idle),
        (look(64, -2), looked(0)),
        (forget(64), Answer::Forgot),
        (commit(64), Answer::Idle),
    ];
    check_run(&rt, rt.alloc(), HOPF, &[2, 3, 5, 7], &events)
}

/// Over two elements the trefoil has one turn fewer at -7 than over other fields, where its
/// homology has no torsion (Knot Atlas, "3_1").
#[test]
fn when_a_block_is_zero_depends_on_the_field(rt: HostRuntime) -> Result<(), Fail> {
    let over_two = [
        (look(3, -7), looked(0)),
        (commit(3), committed(1)),
        (look(3, -7), looked(1)),
        (commit(3), committed(2)),
        (look(3, -7), Answer::Zero),
        (commit(3), Answer::Idle),
    ];
    let over_others = [
        (look(3, -7), looked(0)),
        (commit(3), committed(1)),
        (look(3, -7), looked(1)),
        (commit(3), committed(2)),
        (look(3, -7), looked(2)),
        (commit(3), committed(3)),
        (look(3, -7), Answer::Zero),
    ];
    check_run(&rt, rt.alloc(), TREFOIL, &[2], &over_two)?;
    check_run(&rt, rt.alloc(), TREFOIL, &[3, 5, 7], &over_others)
}

/// A run with 64 workers has these answers over each of the fields.
fn check_run(
    rt: &impl Abort,
    alloc: Global,
    crossings: &[[u8; 4]],
    fields: &[u8],
    worked: &[(Event, Answer)],
) -> Result<(), Fail> {
    let mut events = Vec::new(alloc);
    for (event, _) in worked {
        events.push(*event)?;
    }
    for field in fields {
        let run = run_over(alloc, *field, crossings, 64, &events)?;
        assert!(rt; run.answers.len() == worked.len());
        for (answer, (_, wanted)) in run.answers.iter().zip(worked) {
            assert!(rt; answer == wanted);
        }
    }
    Ok(())
}

/// The table of the Hopf link (Knot Atlas, "L2a1"), which does not depend on the events.
#[test]
fn runs_end_with_the_table(rt: HostRuntime) -> Result<(), Fail> {
    let scripts: [&[Event]; 3] = [&[], &[look(1, -2), commit(1)], &[look(2, -4)]];
    for events in scripts {
        let run = run_over(rt.alloc(), 2, HOPF, 2, events)?;
        let rows = run.table.rows();
        assert!(rt; rows.len() == 4);
        for (row, (j, i)) in rows.iter().zip([(-6, -2), (-4, -2), (-2, 0), (0, 0)]) {
            assert!(rt; *row == Row { j, i, dim: 1 });
        }
    }
    Ok(())
}

#[test]
fn many_workers_hold_looks(rt: HostRuntime) -> Result<(), Fail> {
    let alloc = rt.alloc();
    let mut events = Vec::new(alloc);
    for worker in 1..=64u32 {
        events.push(look(worker, -2))?;
    }
    for worker in 1..=64u32 {
        events.push(commit(65 - worker))?;
    }
    let run = run_over(alloc, 2, HOPF, 64, &events)?;
    assert!(rt; run.answers.len() == 128);
    for (k, answer) in run.answers.iter().enumerate() {
        let wanted = match k {
            0..=63 => looked(0),
            64 => committed(1),
            _ => stale(0, 1),
        };
        assert!(rt; *answer == wanted);
    }
    Ok(())
}

/// What two workers do, three events each. They meet at the blocks at -4 and at -2.
fn threes(worker: u32) -> [[Event; 3]; 5] {
    let other = 3 - worker.min(2);
    let there = if other == 1 { -4 } else { -2 };
    [
        [look(worker, -2), commit(worker), look(worker, -2)],
        [look(worker, -2), commit(worker), forget(worker)],
        [look(worker, -2), look(worker, there), commit(worker)],
        [commit(worker), look(worker, -2), commit(worker)],
        [look(worker, there), look(worker, -5), commit(worker)],
    ]
}

/// All interleavings of what two workers do: bit k of a number below 64 that has three bits says
/// that event k is one of worker 2.
#[test]
fn interleavings_have_the_answers_of_the_table(rt: HostRuntime) -> Result<(), Fail> {
    for first in threes(1) {
        for second in threes(2) {
            for number in 0..64u32 {
                if number.count_ones() == 3 {
                    let events = interleaved(rt.alloc(), &first, &second, number)?;
                    check_plainly(&rt, rt.alloc(), &events)?;
                }
            }
        }
    }
    Ok(())
}

/// The events of two workers, in the order that a number gives.
fn interleaved(
    alloc: Global,
    first: &[Event],
    second: &[Event],
    number: u32,
) -> Result<Vec<Event>, Fail> {
    let mut events = Vec::new(alloc);
    let mut firsts = first.iter();
    let mut seconds = second.iter();
    for k in 0..6u32 {
        let next = if number >> k & 1 == 0 {
            firsts.next()
        } else {
            seconds.next()
        };
        if let Some(event) = next {
            events.push(*event)?;
        }
    }
    Ok(events)
}

/// The answers on the Hopf link's blocks are those of the plain table.
fn check_plainly(rt: &impl Abort, alloc: Global, events: &[Event]) -> Result<(), Fail> {
    let run = run_over(alloc, 2, HOPF, 2, events)?;
    assert!(rt; run.answers.len() == events.len());
    let mut plain = Plain::default();
    for (answer, event) in run.answers.iter().zip(events) {
        assert!(rt; *answer == plain.step(*event));
    }
    Ok(())
}

/// The core's table on the Hopf link, over numbers: the version of each block, and for each of two
/// workers the place of the block that it holds, with the version of the look.
#[derive(Clone, Copy, Default)]
struct Plain {
    versions: [u64; 4],
    held: [Option<(usize, u64)>; 2],
}

impl Plain {
    fn step(&mut self, event: Event) -> Answer {
        let worker = event.worker() as usize % 2;
        let held = self.held[worker].take();
        match event {
            Event::Look { block, .. } => self.look(worker, block),
            Event::Commit { .. } => self.commit(held),
            Event::Forget { .. } => match held {
                Some(_) => Answer::Forgot,
                None => Answer::Idle,
            },
        }
    }

    fn look(&mut self, worker: usize, block: i16) -> Answer {
        for (place, (degree, turns)) in BLOCKS.iter().enumerate() {
            let version = self.versions[place % 4];
            if *degree == block {
                if version == *turns {
                    return Answer::Zero;
                }
                self.held[worker % 2] = Some((place, version));
                return Answer::Looked { version };
            }
        }
        Answer::NoBlock
    }

    fn commit(&mut self, held: Option<(usize, u64)>) -> Answer {
        let Some((place, looked)) = held else {
            return Answer::Idle;
        };
        let now = self.versions[place % 4];
        if looked != now {
            return Answer::Stale { looked, now };
        }
        let version = now.saturating_add(1);
        self.versions[place % 4] = version;
        Answer::Committed { version }
    }
}

fn run_over(
    alloc: Global,
    field: u8,
    crossings: &[[u8; 4]],
    workers: u32,
    events: &[Event],
) -> Result<Run, Fail> {
    let diagram = diagram_of(crossings, 0)?;
    check_size(&diagram)?;
    if workers < 1 || workers > 64 || !are_of_workers(events, workers) {
        return Err(Fail::from(NoMemory));
    }
    Ok(match field {
        2 => run_events::<F2>(alloc, &diagram, workers, events)?,
        3 => run_events::<F3>(alloc, &diagram, workers, events)?,
        5 => run_events::<F5>(alloc, &diagram, workers, events)?,
        _ => run_events::<F7>(alloc, &diagram, workers, events)?,
    })
}
