//! Gates that count calls, hold a worker or slow one down.

use std::sync::atomic::{AtomicU64, Ordering};
use std::thread::yield_now;
use worker_pool::Gate;

/// How often the held worker looks whether it may go on.
const TRIES: u64 = 1_000_000_000;

/// Holds the workers whose first calls come first, so many of them, in these calls, until the
/// others have called so often. It counts the calls of the held workers and those of the others,
/// and how often a held worker gave up.
#[derive(Drop)]
pub struct HoldFirst {
    pub workers: u64,
    pub wanted: u64,
    pub seen: AtomicU64,
    pub held: AtomicU64,
    pub others: AtomicU64,
    pub gave_up: AtomicU64,
}

impl HoldFirst {
    pub fn new(workers: u64, wanted: u64) -> HoldFirst {
        HoldFirst {
            workers,
            wanted,
            seen: AtomicU64::new(0),
            held: AtomicU64::new(0),
            others: AtomicU64::new(0),
            gave_up: AtomicU64::new(0),
        }
    }

    /// Whether this is the first call of a worker that is to be held. Bit k of `seen` is that of
    /// worker k.
    fn takes(&self, worker: u32) -> bool {
        'tries: for _ in 0..TRIES {
            let seen = self.seen.load(Ordering::SeqCst);
            if self.is_held(worker) || u64::from(seen.count_ones()) >= self.workers {
                return false;
            }
            let more = seen | 1 << (worker % 64);
            if self
                .seen
                .compare_exchange(seen, more, Ordering::SeqCst, Ordering::SeqCst)
                .is_ok()
            {
                return true;
            }
        }
        false
    }

    /// Whether a worker is one of the held ones.
    fn is_held(&self, worker: u32) -> bool {
        self.seen.load(Ordering::SeqCst) >> (worker % 64) & 1 == 1
    }

    fn hold(&self) {
        'tries: for _ in 0..TRIES {
            if self.others.load(Ordering::SeqCst) >= self.wanted {
                return;
            }
            yield_now();
        }
        self.gave_up.fetch_add(1, Ordering::SeqCst);
    }
}

impl Gate for HoldFirst {
    fn before_commit(&self, worker: u32, _turn: u64) {
        let first = self.takes(worker);
        if self.is_held(worker) {
            self.held.fetch_add(1, Ordering::SeqCst);
        } else {
            self.others.fetch_add(1, Ordering::SeqCst);
        }
        if first {
            self.hold();
        }
    }
}

/// Lets others go first, many times, in each turn of one worker.
#[derive(Drop)]
pub struct Slow {
    pub worker: u32,
}

impl Gate for Slow {
    fn before_commit(&self, worker: u32, _turn: u64) {
        if worker == self.worker {
            'pauses: for _ in 0..100u32 {
                yield_now();
            }
        }
    }
}

/// Counts turns, and calls that are not of this worker or whose turn is not the next one.
#[derive(Drop)]
pub struct InTurn {
    pub worker: u32,
    pub turns: AtomicU64,
    pub strange: AtomicU64,
}

impl Gate for InTurn {
    fn before_commit(&self, worker: u32, turn: u64) {
        let before = self.turns.fetch_add(1, Ordering::SeqCst);
        if worker != self.worker || turn != before.wrapping_add(1) {
            self.strange.fetch_add(1, Ordering::SeqCst);
        }
    }
}

/// Counts all turns, and calls with the number of no worker or of no turn.
#[derive(Drop)]
pub struct Count {
    pub turns: AtomicU64,
    pub strange: AtomicU64,
    pub workers: u32,
}

impl Gate for Count {
    fn before_commit(&self, worker: u32, turn: u64) {
        self.turns.fetch_add(1, Ordering::SeqCst);
        if worker == 0 || worker > self.workers || turn == 0 {
            self.strange.fetch_add(1, Ordering::SeqCst);
        }
    }
}
