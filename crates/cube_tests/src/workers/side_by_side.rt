//! One worker goes on while others are held.

ghost use Rattle.std.specs.Prelude.{◌≤◌};

use super::diagrams::FIGURE_EIGHT_TURNS;
use super::gates::HoldFirst;
use known_links::{FIGURE_EIGHT, diagram_of};
use prime_field::F2;
use std::alloc::Global;
use std::process::Abort;
use std::sync::Wait;
use std::sync::atomic::Ordering;
use std::test::Fail;
use std::thread::Threads;
use worker_pool::cancel_all;

/// The other worker does all the turns that there are, also at the blocks of held workers. Their
/// own turns come too late, but for the last of all, which one of them may take.
#[test]
fn a_worker_goes_on_while_others_are_held(rt: HostRuntime) -> Result<(), Fail> {
    for _ in 0..20u32 {
        check_held(&rt, rt.alloc(), 1)?;
        check_held(&rt, rt.alloc(), 3)?;
    }
    Ok(())
}

/// So many workers are held, and one is not.
fn check_held<R: Threads + Wait + Sync + Abort>(
    rt: &R,
    alloc: Global,
    held: u32,
) -> Result<(), Fail>
    requires { (1 ≤ held) × (held ≤ 3) }
{
    let diagram = diagram_of(FIGURE_EIGHT, 0)?;
    let gate = HoldFirst::new(u64::from(held), FIGURE_EIGHT_TURNS);
    let made = cancel_all::<R, F2, HoldFirst>(rt, alloc, &diagram, held + 1, &gate)?;
    let calls = gate.held.load(Ordering::SeqCst);
    assert!(rt; gate.gave_up.load(Ordering::SeqCst) == 0);
    assert!(rt; gate.others.load(Ordering::SeqCst) == FIGURE_EIGHT_TURNS);
    assert!(rt; u64::from(held) <= calls && calls <= 2 * u64::from(held));
    assert!(rt; made.blocks.iter().all(|block| block.is_zero()));
    Ok(())
}
