//! A gate at which workers meet, and what `run` does with it.

use kh_io::{MemSink, MemSource};
use kh_types::Words;
use kh_work::{Status, run};
use std::sync::atomic::{AtomicU64, Ordering};
use std::test::Fail;
use std::thread::yield_now;
use worker_pool::Gate;

/// How often workers look, all together, whether the others have come.
const TRIES: u64 = 100_000_000;

/// Counts the calls of the workers 1, 2 and all others, and holds each until so many workers have
/// called.
#[derive(Drop)]
struct Meeting {
    workers: u64,
    first: AtomicU64,
    second: AtomicU64,
    others: AtomicU64,
    tries: AtomicU64,
}

impl Meeting {
    fn of(workers: u64) -> Meeting {
        Meeting {
            workers,
            first: AtomicU64::new(0),
            second: AtomicU64::new(0),
            others: AtomicU64::new(0),
            tries: AtomicU64::new(0),
        }
    }

    /// How many of the workers have called.
    fn come(&self) -> u64 {
        [&self.first, &self.second, &self.others]
            .iter()
            .filter(|calls| calls.load(Ordering::SeqCst) > 0)
            .count() as u64
    }
}

impl Gate for Meeting {
    fn before_commit(&self, worker: u32, _turn: u64) {
        let calls = match worker {
            1 => &self.first,
            2 => &self.second,
            _ => &self.others,
        };
        calls.fetch_add(1, Ordering::SeqCst);
        for _ in 0..TRIES {
            if self.come() >= self.workers || self.tries.fetch_add(1, Ordering::SeqCst) >= TRIES {
                return;
            }
            yield_now();
        }
    }
}

/// As many workers turn as the words say, and one worker on its own asks no gate.
#[test]
fn run_has_as_many_workers_as_the_words_say(rt: HostRuntime) -> Result<(), Fail> {
    for (word, workers) in [("1", 0), ("2", 2), ("3", 3)] {
        let mut words = Words::new(rt.alloc())?;
        for word in ["homology", "--workers", word] {
            words.push(rt.alloc(), word)?;
        }
        let mut source = MemSource::new(rt.alloc(), super::TREFOIL, 7, &[])?;
        let mut sink = MemSink::new(rt.alloc(), 4_096, 5, &[])?;
        let gate = Meeting::of(workers);
        let status = run(&rt, rt.alloc(), &words, &mut source, &mut sink, &gate);
        assert!(rt; status == Status::Done);
        assert!(rt; sink.bytes() == super::TREFOIL_TABLE.as_bytes());
        assert!(rt; gate.come() == workers);
    }
    Ok(())
}
