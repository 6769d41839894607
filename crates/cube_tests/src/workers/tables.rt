//! The same tables for all numbers of workers.

use super::diagrams::{DIAGRAMS, FIGURE_EIGHT_TURNS};
use super::gates::{Count, Slow};
use kh_types::Diagram;
use known_links::{FIGURE_EIGHT, diagram_of};
use prime_field::{F2, F3, PrimeField};
use shared_block::SharedBlock;
use std::alloc::Global;
use std::process::Abort;
use std::sync::Wait;
use std::sync::atomic::{AtomicU64, Ordering};
use std::test::Fail;
use std::thread::Threads;
use worker_pool::{Cancelled, Free, Gate, PoolStop, cancel_all, cancel_alone};

const NUMBERS: &[u32] = &[1, 2, 3, 8, 64];

#[test]
fn any_number_of_workers_makes_the_same_table(rt: HostRuntime) -> Result<(), Fail> {
    for (crossings, loops) in DIAGRAMS {
        let diagram = diagram_of(crossings, *loops)?;
        for _ in 0..3u32 {
            check_tables::<_, F2, _>(&rt, rt.alloc(), &diagram, &Free)?;
            check_tables::<_, F3, _>(&rt, rt.alloc(), &diagram, &Free)?;
        }
    }
    Ok(())
}

#[test]
fn a_slow_worker_changes_no_table(rt: HostRuntime) -> Result<(), Fail> {
    for (crossings, loops) in DIAGRAMS {
        let diagram = diagram_of(crossings, *loops)?;
        for worker in 1..4u32 {
            check_tables::<_, F2, _>(&rt, rt.alloc(), &diagram, &Slow { worker })?;
        }
    }
    Ok(())
}

#[test]
fn each_turn_calls_the_gate(rt: HostRuntime) -> Result<(), Fail> {
    for (crossings, loops) in DIAGRAMS {
        let diagram = diagram_of(crossings, *loops)?;
        let gate = Count {
            turns: AtomicU64::new(0),
            strange: AtomicU64::new(0),
            workers: 3,
        };
        let made = cancel_all::<_, F2, _>(&rt, rt.alloc(), &diagram, 3, &gate)?;
        let turns = gate.turns.load(Ordering::SeqCst);
        assert!(rt; turns >= total_turns(&made.blocks));
        assert!(rt; gate.strange.load(Ordering::SeqCst) == 0);
    }
    Ok(())
}

/// The caller finds nothing left to do.
#[test]
fn workers_commit_all_pivots(rt: HostRuntime) -> Result<(), Fail> {
    let diagram = diagram_of(FIGURE_EIGHT, 0)?;
    for _ in 0..20u32 {
        for workers in 2..5u32 {
            let made = cancel_all::<_, F2, _>(&rt, rt.alloc(), &diagram, workers, &Free)?;
            assert!(rt; sum(&made.committed) == FIGURE_EIGHT_TURNS);
            assert!(rt; total_turns(&made.blocks) == FIGURE_EIGHT_TURNS);
        }
    }
    let alone = cancel_alone::<F2>(rt.alloc(), &diagram)?;
    assert!(rt; sum(&alone.committed) == 0);
    assert!(rt; total_turns(&alone.blocks) == FIGURE_EIGHT_TURNS);
    Ok(())
}

fn sum(numbers: &[u64]) -> u64 {
    let mut total = 0u64;
    for number in numbers {
        total = total.saturating_add(*number);
    }
    total
}

#[test]
fn diagrams_with_too_many_generators_are_refused(rt: HostRuntime) -> Result<(), Fail> {
    let mut curls = Vec::new(rt.alloc());
    for k in 0..16u8 {
        curls.push([2 * k + 1, 2 * k + 1, 2 * k + 2, 2 * k + 2])?;
    }
    let diagram = diagram_of(&curls, 0)?;
    let limit = PoolStop::SizeLimit {
        generators: 2_821_109_907_456,
    };
    let alone = cancel_alone::<F2>(rt.alloc(), &diagram);
    assert!(rt; stop_of(&alone) == Some(limit));
    let all = cancel_all::<_, F2, _>(&rt, rt.alloc(), &diagram, 64, &Free);
    assert!(rt; stop_of(&all) == Some(limit));
    Ok(())
}

fn stop_of<F: PrimeField>(made: &Result<Cancelled<F>, PoolStop>) -> Option<PoolStop> {
    match made {
        Ok(_) => None,
        Err(stop) => Some(*stop),
    }
}

/// Compares with one thread: the table, that the blocks are zero, and how many turns they took.
fn check_tables<R: Threads + Wait + Sync + Abort, F: PrimeField + Send + Sync, G: Gate + Sync>(
    rt: &R,
    alloc: Global,
    diagram: &Diagram,
    gate: &G,
) -> Result<(), Fail> {
    let alone = cancel_alone::<F>(alloc, diagram)?;
    for workers in NUMBERS {
        if 1 <= *workers && *workers <= 64 {
            let made = cancel_all::<R, F, G>(rt, alloc, diagram, *workers, gate)?;
            assert!(rt; made.table.field() == F::P);
            assert!(rt; made.table.rows() == alone.table.rows());
            assert!(rt; made.blocks.iter().all(|block| block.is_zero()));
            assert!(rt; total_turns(&made.blocks) == total_turns(&alone.blocks));
            assert!(rt; made.blocks.len() == alone.blocks.len());
        }
    }
    Ok(())
}

/// The lengths of all histories together.
fn total_turns<F: PrimeField>(blocks: &[SharedBlock<F>]) -> u64 {
    let mut total = 0u64;
    for block in blocks {
        total = total.saturating_add(block.version());
    }
    total
}
