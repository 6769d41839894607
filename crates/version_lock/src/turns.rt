//! A turn at the lock: it is taken, the value is read or written, and it is given up. Word 0 is the
//! turn, word 1 the version, slot 0 has the value.
ghost use Rattle.std.specs.Prelude.{◌≡◌, List, IfErr, ◌+◌, ◌<◌, ◌≤◌, ◌^◌, []};
ghost use Rattle.std.specs.Prelude.{◌∷◌, ◌++◌, length, Some, None, IfOk, IfSome, IfNone};
ghost use mathlib.Core.List.{IsPrefix};
ghost use Rattle.version_lock.specs.Places.{Each, IsAscending};
ghost use Rattle.version_lock.specs.Views.{kept_view, given_view, joined_view, freed, grown};
ghost use Rattle.version_lock.specs.Steps.{Took};
ghost use Rattle.version_lock.specs.Turns.{Saw, Commits, Holds, HasGrown};

use crate::commit_seen::CommitSeen;
use crate::held::Held;
use crate::rule::{Opening, TurnRule, View};
use crate::steps::{Affirm, Commit, JoinShares, Measure, Release, SplitShare, Try, Withdraw};
use atomic_table::{Seat, Shared};
use kh_types::NoMemory;
use std::alloc::Global;
use std::hint::spin_loop;
use std::sync::Wait;
use std::sync::atomic::{AtomicU64, Ordering};

/// A seat at the table of a lock over a B.
pub(crate) type TableSeat<B> = Seat<B, View<<B as Held>::Origin, <B as Held>::Entry>>;

/// The table of a lock over a B.
pub(crate) type LockTable<B> = Shared<
    B,
    View<<B as Held>::Origin, <B as Held>::Entry>,
    Opening<B>,
    TurnRule<B>,
>;

/// How often a seat looks whether the turn is given up, before it sleeps: chosen by measurement.
const TRIES: u32 = 32;

/// Takes the turn and the value. It waits where another seat has the turn, and is counted while it
/// sleeps.
pub(crate) fn take_turn<B: Held, R: Wait>(
    rt: &R,
    table: &LockTable<B>,
    waiting: &AtomicU64,
    seat: &mut TableSeat<B>,
)
    requires table { (seat.old.table_id ≡ table.now.table_id) × (table.now.table_id.words ≡ 2) }
    requires idle { (seat.old.me.1 ≡ []) × (seat.old.me.0.held ≡ None) × (1 ≤ seat.old.me.0.share) }
    ensures table { (seat.new.table_id ≡ seat.old.table_id) × (seat.new.id ≡ seat.old.id) }
    ensures took { Took B.origin B.history seat.old.me seat.new.me }
{
    for _ in rt.forever() {
        if table.compare_exchange::<Try<B>>(seat, 0, 0, 1) == 0 {
            return;
        }
        if is_soon_free(table) {
            continue;
        }
        waiting.fetch_add(1, Ordering::SeqCst);
        table.park(rt, 0, 1);
        waiting.fetch_sub(1, Ordering::SeqCst);
    }
    unreachable!()
}

/// Whether the turn is given up in a little while.
fn is_soon_free<B: Held>(table: &LockTable<B>) -> bool
    requires { table.now.table_id.words ≡ 2 }
{
    'tries: for _ in 0..TRIES {
        if table.peek(0) == 0 {
            return true;
        }
        spin_loop();
    }
    false
}

/// Looks at the value that is out with the seat.
pub(crate) fn look_at_value<B: Held>(
    alloc: Global,
    table: &LockTable<B>,
    seat: &mut TableSeat<B>,
    hint: u32,
) -> Result<Option<B::Look>, NoMemory>
    requires { (seat.old.table_id ≡ table.now.table_id) × Holds (λ value. Unit {0}) seat.old.me }
    ensures table { (seat.new.table_id ≡ seat.old.table_id) × (seat.new.id ≡ seat.old.id) ×
        (seat.new.me ≡ seat.old.me) }
    ensures none { Holds (λ value. IfOk result (λ seen.
        IfNone seen (B.done (B.origin value) (B.history value)))) seat.old.me }
    ensures look { Holds (λ value. IfOk result (λ seen. IfSome seen (λ look.
        (¬ B.done (B.origin value) (B.history value)) ×
        B.look_fits look (B.origin value) (B.history value)))) seat.old.me }
{
    seat.slot_mut(table, 0).look_at(alloc, hint)
}

/// Takes the patch into the value that is out with the seat.
pub(crate) fn take_patch<B: Held>(table: &LockTable<B>, seat: &mut TableSeat<B>, patch: B::Patch)
    requires table { seat.old.table_id ≡ table.now.table_id }
    requires fits { Holds (λ value.
        B.patch_fits patch (B.origin value) (B.history value)) seat.old.me }
    ensures table { (seat.new.table_id ≡ seat.old.table_id) × (seat.new.id ≡ seat.old.id) ×
        (seat.new.me.0 ≡ seat.old.me.0) }
    ensures taken { Holds (λ value. Holds (λ left.
        (B.history left ≡ B.history value ++ B.entry patch ∷ []) ×
        (B.origin left ≡ B.origin value)) seat.new.me) seat.old.me }
{
    let value = seat.slot_mut(table, 0);
    value.take(patch);
}

/// The version, which is the length of the history that the seat holds.
pub(crate) fn read_version<B: Held>(table: &LockTable<B>, seat: &mut TableSeat<B>) -> u64
    requires { (seat.old.table_id ≡ table.now.table_id) × (table.now.table_id.words ≡ 2) ×
        (1 ≤ seat.old.me.0.share) }
    ensures table { (seat.new.table_id ≡ seat.old.table_id) × (seat.new.id ≡ seat.old.id) ×
        (seat.new.me ≡ seat.old.me) }
    ensures length { IfSome seat.old.me.0.held (λ log. result ≡ length log) }
{
    table.load::<Measure>(seat, 1)
}

/// Gives the turn up with the value, whose history the seat has seen.
pub(crate) fn release<B: Held>(table: &LockTable<B>, waiting: &AtomicU64, seat: &mut TableSeat<B>)
    requires table { (seat.old.table_id ≡ table.now.table_id) × (table.now.table_id.words ≡ 2) ×
        (table.now.table_id.slots ≡ 1) }
    requires out { Holds (λ value. (seat.old.me.0.held ≡ Some (B.history value)) ×
        (seat.old.me.0.origin ≡ Some (B.origin value))) seat.old.me × (1 ≤ seat.old.me.0.share) }
    ensures table { (seat.new.table_id ≡ seat.old.table_id) × (seat.new.id ≡ seat.old.id) }
    ensures freed { Holds (λ value. seat.new.me ≡ (
      freed seat.old.me.0 (B.history value),
      [],
    )) seat.old.me }
{
    table.store::<Release>(seat, 0, 0);
    wake(table, waiting);
}

/// The same, and the seat has seen no more than before it had the turn.
pub(crate) fn withdraw<B: Held>(table: &LockTable<B>, waiting: &AtomicU64, seat: &mut TableSeat<B>)
    requires table { (seat.old.table_id ≡ table.now.table_id) × (table.now.table_id.words ≡ 2) ×
        (table.now.table_id.slots ≡ 1) }
    requires out { Holds (λ value. (seat.old.me.0.held ≡ Some (B.history value)) ×
        (seat.old.me.0.origin ≡ Some (B.origin value))) seat.old.me × (1 ≤ seat.old.me.0.share) }
    requires below { Each (λ place. place < length seat.old.me.0.seen) seat.old.me.0.mine }
    ensures table { (seat.new.table_id ≡ seat.old.table_id) × (seat.new.id ≡ seat.old.id) }
    ensures freed { seat.new.me ≡ (freed seat.old.me.0 seat.old.me.0.seen, []) }
{
    table.store::<Withdraw>(seat, 0, 0);
    wake(table, waiting);
}

/// Wakes one of the seats that wait for the turn, if there is one. A seat that is counted only
/// after this looked sleeps only if another has taken the turn since, and that one wakes it.
fn wake<B: Held>(table: &LockTable<B>, waiting: &AtomicU64)
    requires { table.now.table_id.words ≡ 2 }
{
    if waiting.load(Ordering::SeqCst) > 0 {
        table.wake_one(0);
    }
}

/// Enters what the value has gained into the history, and raises the version.
pub(crate) fn publish<B: Held>(table: &LockTable<B>, seat: &mut TableSeat<B>, version: u64)
    requires table { (seat.old.table_id ≡ table.now.table_id) × (table.now.table_id.words ≡ 2) ×
        (version < 2 ^ 63) }
    requires grown { HasGrown B.history version seat.old.me × (1 ≤ seat.old.me.0.share) }
    ensures table { (seat.new.table_id ≡ seat.old.table_id) × (seat.new.id ≡ seat.old.id) }
    ensures grown { Holds (λ value. seat.new.me ≡ (
      grown seat.old.me.0 version (B.history value),
      seat.old.me.1,
    )) seat.old.me }
{
    table.store::<Commit<B>>(seat, 1, version + 1);
}

/// A look in a turn of its own, with the version.
pub(crate) fn look<B: Held, R: Wait>(
    rt: &R,
    alloc: Global,
    table: &LockTable<B>,
    waiting: &AtomicU64,
    seat: &mut TableSeat<B>,
    hint: u32,
) -> Result<(u64, Option<B::Look>), NoMemory>
    requires table { (seat.old.table_id ≡ table.now.table_id) × (table.now.table_id.words ≡ 2) ×
        (table.now.table_id.slots ≡ 1) }
    requires idle { (seat.old.me.1 ≡ []) × (seat.old.me.0.held ≡ None) × (1 ≤ seat.old.me.0.share) }
    ensures table { (seat.new.table_id ≡ seat.old.table_id) × (seat.new.id ≡ seat.old.id) }
    ensures found { IfOk result (λ r. (start : B.Origin) × (log : List B.Entry) ×
        (seat.old.me.0.origin ≡ Some start) × Saw seat.old.me.0 log seat.new.me.0 ×
        (seat.new.me.1 ≡ []) × (r.0 ≡ length log) × IfNone r.1 (B.done start log) ×
        IfSome r.1 (λ look. (¬ B.done start log) × B.look_fits look start log)) }
    ensures memory { IfErr result (λ _. seat.new.me ≡ seat.old.me) }
{
    take_turn(rt, table, waiting, seat);
    match look_at_value(alloc, table, seat, hint) {
        Ok(found) => {
            let now = read_version(table, seat);
            release(table, waiting, seat);
            Ok((now, found))
        }
        Err(failed) => {
            withdraw(table, waiting, seat);
            Err(failed)
        }
    }
}

/// A commit in a turn of its own.
pub(crate) fn commit<B: Held, R: Wait>(
    rt: &R,
    table: &LockTable<B>,
    waiting: &AtomicU64,
    seat: &mut TableSeat<B>,
    looked: u64,
    patch: B::Patch,
) -> CommitSeen
    requires table { (seat.old.table_id ≡ table.now.table_id) × (table.now.table_id.words ≡ 2) ×
        (table.now.table_id.slots ≡ 1) }
    requires idle { (seat.old.me.1 ≡ []) × (seat.old.me.0.held ≡ None) × (1 ≤ seat.old.me.0.share) }
    requires looked { looked ≡ length seat.old.me.0.seen }
    requires fits { (start : B.Origin) × (seat.old.me.0.origin ≡ Some start) ×
        B.patch_fits patch start seat.old.me.0.seen }
    ensures table { (seat.new.table_id ≡ seat.old.table_id) × (seat.new.id ≡ seat.old.id) ×
        (seat.new.me.1 ≡ []) }
    ensures commit { Commits (B.entry patch) seat.old.me.0 result seat.new.me.0 }
{
    take_turn(rt, table, waiting, seat);
    let now = read_version(table, seat);
    if now == looked {
        take_patch(table, seat, patch);
        publish(table, seat, now);
        release(table, waiting, seat);
        CommitSeen::Committed { version: now + 1 }
    } else {
        release(table, waiting, seat);
        CommitSeen::Stale { looked, now }
    }
}

/// A new seat with one of the shares.
pub(crate) fn split_share<B: Held>(table: &LockTable<B>, seat: &mut TableSeat<B>) -> TableSeat<B>
    requires table { (seat.old.table_id ≡ table.now.table_id) × (table.now.table_id.words ≡ 2) }
    requires idle { (seat.old.me.0.held ≡ None) × (2 ≤ seat.old.me.0.share) }
    ensures kept { (seat.new.table_id ≡ seat.old.table_id) ×
        (seat.new.me ≡ (kept_view seat.old.me.0, seat.old.me.1)) }
    ensures given { (result.table_id ≡ seat.old.table_id) × (result.me ≡ (
      given_view seat.old.me.0,
      [],
    )) }
{
    table.split_seat::<SplitShare>(seat)
}

/// Takes the other seat in.
pub(crate) fn join_shares<B: Held>(
    table: &LockTable<B>,
    seat: &mut TableSeat<B>,
    other: TableSeat<B>,
)
    requires table { (seat.old.table_id ≡ table.now.table_id) ×
        (other.table_id ≡ table.now.table_id) × (table.now.table_id.words ≡ 2) }
    requires idle { (seat.old.me.0.held ≡ None) × (1 ≤ seat.old.me.0.share) }
    requires other { (other.me.1 ≡ []) × (other.me.0.held ≡ None) × (1 ≤ other.me.0.share) }
    ensures kept { (seat.new.table_id ≡ seat.old.table_id) ×
        (seat.new.me ≡ (joined_view seat.old.me.0 other.me.0, seat.old.me.1)) }
    ensures seen { (log : List B.Entry) × IsPrefix seat.old.me.0.seen log ×
        IsPrefix other.me.0.seen log }
    ensures places { IsAscending seat.new.me.0.mine × (seat.new.me.0.share < 2 ^ 32) }
{
    table.join_seat::<JoinShares>(seat, other);
    table.load::<Affirm>(seat, 0);
}
