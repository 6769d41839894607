//! The turns that a worker takes at one block, a whole complex or a column reduction.

ghost use Rattle.std.specs.Prelude.{◌≡◌, ◌+◌, ◌<◌, ◌≤◌, ◌^◌, List, length, true, IfOk};
ghost use mathlib.Core.List.{IsPrefix};
ghost use Rattle.kh_types.specs.Complex.{is_zero};
ghost use Rattle.shared_block.specs.BlockHistories.{block_with, complex_of};
ghost use Rattle.version_lock.specs.Calls.{IsSeatOf};
ghost use Rattle.worker_pool.specs.declared.turns.TheConstants.{LONGEST_PAUSE};

use crate::gate::Gate;
use kh_types::NoMemory;
use prime_field::PrimeField;
use shared_block::{BlockLook, BlockPatch, ColumnBlock, ColumnLook, SharedBlock};
use std::alloc::Global;
use std::sync::Wait;
use std::sync::atomic::AtomicU64;
use std::time::Duration;
use version_lock::laws::seat_laws;
use version_lock::{CommitSeen, Held, Versioned, WorkSeat};

/// How long a worker sleeps after a commit that was stale, in microseconds, the first time.
const FIRST_PAUSE: u64 = 100;

/// How long it sleeps at most, in microseconds.
const LONGEST_PAUSE: u64 = 4000;

/// More turns than any block takes: each is a pivot more that the seat knows, and no history has as
/// many.
const MOST_TURNS: u128 = 1 << 64;

/// A held value whose looks become patches.
pub trait Block: Held {
    /// A hint for the next look, on which no clause rests. That the history is short follows from
    /// the look.
    fn hint(look: &Self::Look) -> u32
        ensures short { (start : Self.Origin) (log : List Self.Entry)
            → Self.look_fits look.now start log → length log < 2 ^ 63 };

    /// The patch of a look; it fits wherever the look does.
    fn patch(alloc: Global, look: Self::Look) -> Result<Self::Patch, NoMemory>
        ensures fits { IfOk result (λ made. (start : Self.Origin) (log : List Self.Entry)
            → Self.look_fits look start log → Self.patch_fits made start log) };
}

impl<F: PrimeField + Send> Block for SharedBlock<F> {
    fn hint(look: &BlockLook<F>) -> u32 {
        look.hint()
    }

    fn patch(alloc: Global, look: BlockLook<F>) -> Result<BlockPatch<F>, NoMemory> {
        look.patch(alloc)
    }
}

impl<F: PrimeField + Send> Block for ColumnBlock<F> {
    fn hint(_look: &ColumnLook) -> u32 {
        0
    }

    fn patch(_alloc: Global, look: ColumnLook) -> Result<ColumnLook, NoMemory> {
        Ok(look)
    }
}

/// Takes turns at a block until a look finds it done, and answers their number. A turn is a look, a
/// patch, one call of the gate and a commit; it brings the seat at least one pivot more to know, of
/// its own or of others.
pub(crate) fn take_turns<R: Wait, B: Block, G: Gate>(
    rt: &R,
    alloc: Global,
    lock: &Versioned<B>,
    seat: &mut WorkSeat<B>,
    worker: u32,
    gate: &G,
) -> Result<u64, NoMemory>
    requires belongs { IsSeatOf lock.now seat.old }
    ensures belongs { IsSeatOf lock.now seat.new }
    ensures share { seat.new.share ≡ seat.old.share }
    ensures seen { IsPrefix seat.old.seen seat.new.seen }
    ensures mine { IsPrefix seat.old.mine seat.new.mine }
    ensures done { IfOk result (λ _. B.done lock.now.origin seat.new.seen) }
    ensures turns { IfOk result (λ turns. length seat.old.seen + turns ≤ length seat.new.seen) }
    ensures own { IfOk result (λ turns. length seat.new.mine ≤ length seat.old.mine + turns) }
{
    let mut turns = 0u64;
    let mut hint = 0u32;
    let mut pause = FIRST_PAUSE;
    'turns: for _ in 0..MOST_TURNS {
        let Some(look) = lock.look_with(rt, alloc, seat, hint)? else {
            return Ok(turns);
        };
        hint = B::hint(&look);
        let patch = B::patch(alloc, look)?;
        turns += 1;
        gate.before_commit(worker, turns);
        pause = paused(rt, lock.commit_with(rt, seat, patch), pause);
    }
    seat_laws(seat);
    unreachable!()
}

/// Takes turns at a block until a look finds it zero, and answers their number.
pub fn work<R: Wait, F: PrimeField + Send, G: Gate>(
    rt: &R,
    alloc: Global,
    lock: &Versioned<SharedBlock<F>>,
    seat: &mut WorkSeat<SharedBlock<F>>,
    worker: u32,
    gate: &G,
) -> Result<u64, NoMemory>
    requires belongs { IsSeatOf lock.now seat.old }
    ensures belongs { IsSeatOf lock.now seat.new }
    ensures share { seat.new.share ≡ seat.old.share }
    ensures seen { IsPrefix seat.old.seen seat.new.seen }
    ensures mine { IsPrefix seat.old.mine seat.new.mine }
    ensures done { IfOk result (λ _. is_zero (complex_of F.P (
        block_with lock.now.origin.0 lock.now.origin.1 seat.new.seen)) ≡ true) }
    ensures turns { IfOk result (λ turns. length seat.old.seen + turns ≤ length seat.new.seen) }
    ensures own { IfOk result (λ turns. length seat.new.mine ≤ length seat.old.mine + turns) }
{
    take_turns(rt, alloc, lock, seat, worker, gate)
}

/// Lets others go first after a stale commit: sleeps for so many microseconds, and answers how many
/// it will be after the next. They are twice as many after each one in a row.
fn paused<R: Wait>(rt: &R, seen: CommitSeen, pause: u64) -> u64
    requires { pause ≤ LONGEST_PAUSE }
    ensures { result ≤ LONGEST_PAUSE }
{
    match seen {
        CommitSeen::Committed { version: _ } => FIRST_PAUSE,
        CommitSeen::Stale { looked: _, now: _ } => {
            let nobody_wakes = AtomicU64::new(0);
            nobody_wakes.park_timeout(rt, 0, Duration::from_micros(pause));
            pause.saturating_mul(2).min(LONGEST_PAUSE)
        }
    }
}
