//! A block whose lock has one seat.

ghost use Rattle.std.specs.Prelude.{◌≡◌, [], IfOk, length};
ghost use Rattle.shared_block.specs.AllBlocks.{IsFinished};

use crate::gate::Gate;
use crate::turns::work;
use kh_types::NoMemory;
use prime_field::PrimeField;
use shared_block::SharedBlock;
use std::alloc::Global;
use std::sync::Wait;
use version_lock::Versioned;

/// Cancels a block with no history by the turns of the one seat at its lock, worker 1, and tells
/// their number: each pivot of the history is from one turn.
pub fn cancel_by_one_seat<R: Wait, F: PrimeField + Send, G: Gate>(
    rt: &R,
    alloc: Global,
    block: SharedBlock<F>,
    gate: &G,
) -> Result<(SharedBlock<F>, u64), NoMemory>
    requires { block.history ≡ [] }
    ensures zero { IfOk result (λ made. IsFinished F.P made.0) }
    ensures diagram { IfOk result (λ made. made.0.diagram ≡ block.diagram) }
    ensures degree { IfOk result (λ made. made.0.degree ≡ block.degree) }
    ensures turns { IfOk result (λ made. length made.0.history ≡ made.1) }
{
    let (lock, seat) = Versioned::new(alloc, block, 1)?;
    let mut seat = seat;
    let turns = work(rt, alloc, &lock, &mut seat, 1, gate)?;
    Ok((lock.close(seat), turns))
}
