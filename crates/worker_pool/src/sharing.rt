//! How workers share many blocks: each works at the largest block that nobody has begun, and where
//! all are begun it helps at those where work is left.

ghost use Rattle.std.specs.Prelude.{◌+◌, ◌<◌, ◌^◌, All, length};
ghost use Rattle.worker_pool.specs.Rows.{IsRowOf};

use crate::crew::Crew;
use crate::gate::Gate;
use crate::turns::take_turns;
use kh_types::NoMemory;
use prime_field::PrimeField;
use shared_block::ColumnBlock;
use std::alloc::Global;
use std::sync::Wait;
use std::sync::atomic::{AtomicBool, AtomicU64, Ordering};
use std::thread;
use std::thread::Threads;
use version_lock::{Versioned, WorkSeat};

/// What workers share beside the blocks: how many blocks are begun, and which a worker has seen to
/// be zero.
#[derive(Drop)]
pub(crate) struct Course {
    begun: AtomicU64,
    zero: Vec<AtomicBool>,
}

impl Course {
    /// Nothing is begun of so many blocks.
    pub(crate) fn new(alloc: Global, count: usize) -> Result<Course, NoMemory> {
        let mut zero = Vec::with_capacity(alloc, count)?;
        'places: for _ in 0..count {
            zero.push(AtomicBool::new(false))?;
        }
        Ok(Course {
            begun: AtomicU64::new(0),
            zero,
        })
    }

    /// The last place of those whose blocks nobody has begun: the largest block is the last.
    fn next_place(&self) -> Option<usize> {
        let begun = next_number(&self.begun)?;
        self.zero.len().checked_sub(begun)?.checked_sub(1)
    }

    /// Whether a worker has seen the block at a place to be zero.
    fn is_zero(&self, place: usize) -> bool {
        match self.zero.get(place) {
            Some(zero) => zero.load(Ordering::SeqCst),
            None => false,
        }
    }

    /// Says that the block at a place has been seen to be zero.
    fn see_zero(&self, place: usize) {
        if let Some(zero) = self.zero.get(place) {
            zero.store(true, Ordering::SeqCst);
        }
    }
}

/// Has each row worked at by a thread of its own.
pub(crate) fn work_rows<R: Threads + Wait + Sync, F: PrimeField + Send + Sync, G: Gate + Sync>(
    crew: &Crew<R, G>,
    locks: &[Versioned<ColumnBlock<F>>],
    course: &Course,
    rows: &mut [Vec<WorkSeat<ColumnBlock<F>>>],
)
    requires few { length rows.old < 2 ^ 32 }
    requires rows { All (λ row. IsRowOf locks.now row.items) rows.old }
    ensures rows { All (λ row. IsRowOf locks.now row.items) rows.new }
{
    let threads = rows.len();
    if threads == 0 {
        return;
    }
    thread::for_each_mut(
        crew.rt,
        rows,
        threads,
        &|place: usize, row: &mut Vec<WorkSeat<ColumnBlock<F>>>|
            requires { (place + 1 < 2 ^ 32) × IsRowOf locks.now row.now.items }
            ensures { IsRowOf locks.entry.now row.exit.now.items }
        {
            let worker = place as u32 + 1;
            work_row(crew, locks, course, row.as_mut_slice(), worker)
        },
    );
}

/// What one worker does. It stops where memory runs out.
fn work_row<R: Wait, F: PrimeField + Send, G: Gate>(
    crew: &Crew<R, G>,
    locks: &[Versioned<ColumnBlock<F>>],
    course: &Course,
    seats: &mut [WorkSeat<ColumnBlock<F>>],
    worker: u32,
)
    requires { IsRowOf locks.now seats.old }
    ensures { IsRowOf locks.now seats.new }
{
    'begun: for _ in 0..locks.len() {
        let Some(place) = course.next_place() else {
            break;
        };
        if !work_at(crew, locks, seats, place, worker) {
            return;
        }
        course.see_zero(place);
    }
    'helped: for place in 0..locks.len() {
        if course.is_zero(place) {
            continue;
        }
        if !work_at(crew, locks, seats, place, worker) {
            return;
        }
        course.see_zero(place);
    }
}

/// The next number from 0 on that nobody has taken.
pub(crate) fn next_number(begun: &AtomicU64) -> Option<usize> {
    usize::try_from(begun.fetch_add(1, Ordering::SeqCst)).ok()
}

/// Works at one block until it is zero: whether there was memory enough.
fn work_at<R: Wait, F: PrimeField + Send, G: Gate>(
    crew: &Crew<R, G>,
    locks: &[Versioned<ColumnBlock<F>>],
    seats: &mut [WorkSeat<ColumnBlock<F>>],
    place: usize,
    worker: u32,
) -> bool
    requires { IsRowOf locks.now seats.old }
    ensures { IsRowOf locks.now seats.new }
{
    if place >= locks.len() || place >= seats.len() {
        return true;
    }
    take_turns(
        crew.rt,
        crew.alloc,
        &locks[place],
        &mut seats[place],
        worker,
        crew.gate,
    )
    .is_ok()
}
