//! Blocks whose locks have one seat.

use super::diagrams::FIGURE_EIGHT_TURNS;
use super::gates::InTurn;
use cube_signs::check_size;
use known_links::{FIGURE_EIGHT, diagram_of};
use prime_field::F2;
use shared_block::blocks_of;
use std::sync::atomic::{AtomicU64, Ordering};
use std::test::Fail;
use version_lock::Versioned;
use worker_pool::{Free, cancel_by_one_seat, work};

#[test]
fn work_at_each_block_of_the_figure_eight_takes_28_turns(rt: HostRuntime) -> Result<(), Fail> {
    let alloc = rt.alloc();
    let diagram = diagram_of(FIGURE_EIGHT, 0)?;
    check_size(&diagram)?;
    let mut total = 0u64;
    for block in blocks_of::<F2>(alloc, &diagram)? {
        let (lock, seat) = Versioned::new(alloc, block, 1)?;
        let mut seat = seat;
        let gate = InTurn {
            worker: 7,
            turns: AtomicU64::new(0),
            strange: AtomicU64::new(0),
        };
        let turns = work(&rt, alloc, &lock, &mut seat, 7, &gate)?;
        let again = work(&rt, alloc, &lock, &mut seat, 7, &gate)?;
        assert!(rt; again == 0);
        let block = lock.close(seat);
        assert!(rt; block.is_zero());
        assert!(rt; block.version() == turns);
        assert!(rt; gate.turns.load(Ordering::SeqCst) == turns);
        assert!(rt; gate.strange.load(Ordering::SeqCst) == 0);
        total = total.saturating_add(turns);
    }
    assert!(rt; total == FIGURE_EIGHT_TURNS);
    Ok(())
}

#[test]
fn one_seat_cancels_a_block(rt: HostRuntime) -> Result<(), Fail> {
    let alloc = rt.alloc();
    let diagram = diagram_of(FIGURE_EIGHT, 0)?;
    check_size(&diagram)?;
    let mut total = 0u64;
    for block in blocks_of::<F2>(alloc, &diagram)? {
        if block.version() == 0 {
            let (block, turns) = cancel_by_one_seat(&rt, alloc, block, &Free)?;
            assert!(rt; block.is_zero());
            total = total.saturating_add(turns);
        }
    }
    assert!(rt; total == FIGURE_EIGHT_TURNS);
    Ok(())
}
