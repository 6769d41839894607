//! Many locks, with a row of seats for the caller and one for each worker. Values are locked in the
//! order from the last to the first, so that they are taken back in their own.

ghost use Rattle.std.specs.Prelude.{◌≡◌, ◌+◌, ◌<◌, ◌^◌, ◌++◌, ◌∷◌, [], length, map, reverse};
ghost use Rattle.std.specs.Prelude.{All, IfNone, IfOk, IfSome, OnOk};
ghost use Rattle.std.specs.List.{AllZip};
ghost use Rattle.version_lock.specs.Calls.{IsSeatOf};
ghost use Rattle.worker_pool.specs.Rows.{AreSeated, EndsAt, Gains, IsOneSeatOf, Loses};

use kh_types::NoMemory;
use std::alloc::Global;
use version_lock::{Held, Versioned, WorkSeat};

/// Locks, the caller's row of seats, and the rows of the workers.
#[derive(Drop)]
pub(crate) struct Pool<B: Held> {
    pub(crate) locks: Vec<Versioned<B>>,
    pub(crate) kept: Vec<WorkSeat<B>>,
    pub(crate) rows: Vec<Vec<WorkSeat<B>>>,
}

/// Locks over some values, the last first, and rows of seats for so many workers.
pub(crate) fn opened<B: Held>(
    alloc: Global,
    mut values: Vec<B>,
    workers: usize,
) -> Result<Pool<B>, NoMemory>
    requires { workers + 1 < 2 ^ 32 }
    ensures seated { IfOk result (λ pool.
        AreSeated pool.locks.items pool.kept.items pool.rows.items) }
    ensures origins { IfOk result (λ pool.
        map (λ lock. lock.origin) pool.locks.items ≡ reverse (map B.origin values.items)) }
    ensures rows { IfOk result (λ pool. length pool.rows.items ≡ workers) }
{
    let mut pool = Pool {
        locks: Vec::with_capacity(alloc, values.len())?,
        kept: Vec::with_capacity(alloc, values.len())?,
        rows: empty_rows(alloc, workers)?,
    };
    'values: while let Some(value) = values.pop() {
        add(alloc, &mut pool, value)?;
    }
    Ok(pool)
}

/// So many rows with no seat.
fn empty_rows<B: Held>(alloc: Global, count: usize) -> Result<Vec<Vec<WorkSeat<B>>>, NoMemory>
    ensures count { IfOk result (λ rows. length rows.items ≡ count) }
    ensures empty { IfOk result (λ rows. All (λ row. row.items ≡ []) rows.items) }
{
    let mut rows = Vec::with_capacity(alloc, count)?;
    'rows: for _ in 0..count {
        rows.push(Vec::new(alloc))?;
    }
    Ok(rows)
}

/// A lock over one more value, at which each row gains a seat. Where memory runs out, some rows
/// have gained one.
fn add<B: Held>(alloc: Global, pool: &mut Pool<B>, value: B) -> Result<(), NoMemory>
    requires few { length pool.old.rows.items + 1 < 2 ^ 32 }
    requires seated { AreSeated pool.old.locks.items pool.old.kept.items pool.old.rows.items }
    ensures seated { OnOk result
        (AreSeated pool.new.locks.items pool.new.kept.items pool.new.rows.items) }
    ensures origins { OnOk result (map (λ lock. lock.origin) pool.new.locks.items
        ≡ map (λ lock. lock.origin) pool.old.locks.items ++ B.origin value ∷ []) }
    ensures rows { OnOk result (length pool.new.rows.items ≡ length pool.old.rows.items) }
{
    let seats = pool.rows.len() as u32 + 1;
    let (lock, seat) = Versioned::new(alloc, value, seats)?;
    let rest = deal(&lock, seat, pool.rows.as_mut_slice())?;
    pool.kept.push(rest)?;
    pool.locks.push(lock)?;
    Ok(())
}

/// Each row gains a seat of the lock; the rest is given back.
fn deal<B: Held>(
    lock: &Versioned<B>,
    seat: WorkSeat<B>,
    rows: &mut [Vec<WorkSeat<B>>],
) -> Result<WorkSeat<B>, NoMemory>
    requires belongs { IsSeatOf lock.now seat }
    requires share { seat.share ≡ length rows.old + 1 }
    ensures rest { IfOk result (IsOneSeatOf lock.now) }
    ensures rows { OnOk result (AllZip (Gains lock.now) rows.old rows.new) }
{
    let mut rest = seat;
    'rows: for row in rows.iter_mut() {
        rest = deal_one(lock, rest, row)?;
    }
    Ok(rest)
}

/// A row gains a seat that is split off; the rest is given back.
fn deal_one<B: Held>(
    lock: &Versioned<B>,
    seat: WorkSeat<B>,
    row: &mut Vec<WorkSeat<B>>,
) -> Result<WorkSeat<B>, NoMemory>
    requires belongs { IsSeatOf lock.now seat }
    requires share { 1 < seat.share }
    ensures belongs { IfOk result (IsSeatOf lock.now) }
    ensures share { IfOk result (λ rest. rest.share + 1 ≡ seat.share) }
    ensures row { OnOk result (Gains lock.now row.old row.new) }
{
    let (rest, given) = lock.split(seat);
    row.push(given)?;
    Ok(rest)
}

/// Takes the value out of the last lock, which each row loses its seat at.
pub(crate) fn take_last<B: Held>(pool: &mut Pool<B>) -> Option<B>
    requires { AreSeated pool.old.locks.items pool.old.kept.items pool.old.rows.items }
    ensures seated { AreSeated pool.new.locks.items pool.new.kept.items pool.new.rows.items }
    ensures none { IfNone result (pool.old.locks.items ≡ []) }
    ensures some { IfSome result (λ value. map (λ lock. lock.origin) pool.old.locks.items
        ≡ map (λ lock. lock.origin) pool.new.locks.items ++ B.origin value ∷ []) }
{
    let lock = pool.locks.pop()?;
    let Some(seat) = pool.kept.pop() else {
        unreachable!()
    };
    let seat = gathered(&lock, seat, pool.rows.as_mut_slice());
    Some(lock.close(seat))
}

/// The seat that takes in the last seat of each row.
fn gathered<B: Held>(
    lock: &Versioned<B>,
    seat: WorkSeat<B>,
    rows: &mut [Vec<WorkSeat<B>>],
) -> WorkSeat<B>
    requires belongs { IsSeatOf lock.now seat }
    requires rows { All (EndsAt lock.now) rows.old }
    ensures belongs { IsSeatOf lock.now result }
    ensures share { result.share ≡ seat.share + length rows.old }
    ensures rows { AllZip (Loses lock.now) rows.old rows.new }
{
    let mut all = seat;
    'rows: for row in rows.iter_mut() {
        all = gather_one(lock, all, row);
    }
    all
}

/// The seat that takes in the last seat of a row.
fn gather_one<B: Held>(
    lock: &Versioned<B>,
    seat: WorkSeat<B>,
    row: &mut Vec<WorkSeat<B>>,
) -> WorkSeat<B>
    requires belongs { IsSeatOf lock.now seat }
    requires row { EndsAt lock.now row.old }
    ensures belongs { IsSeatOf lock.now result }
    ensures share { result.share ≡ seat.share + 1 }
    ensures row { Loses lock.now row.old row.new }
{
    let Some(last) = row.pop() else {
        unreachable!()
    };
    lock.join(seat, last)
}
