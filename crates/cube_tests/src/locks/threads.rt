//! Two threads that add numbers to one list under a lock.
ghost use Rattle.std.specs.Prelude.{◌≡◌, ◌+◌, ◌≤◌, ◌<◌, ◌^◌, [], length, IfOk};
ghost use Rattle.kh_types.specs.Bits.{one_if};
ghost use Rattle.version_lock.specs.Calls.{IsSeatOf};

use super::numbers::{Addition, Looks, Numbers};
use kh_types::NoMemory;
use std::alloc::Global;
use std::process::Abort;
use std::sync::Wait;
use std::test::Fail;
use std::thread::{Threads, join};
use version_lock::{CommitSeen, Versioned, WorkSeat};

/// One look, and one commit where there is room: whether it was taken.
fn add_once<R: Wait>(
    rt: &R,
    alloc: Global,
    lock: &Versioned<Numbers>,
    seat: &mut WorkSeat<Numbers>,
    number: u32,
) -> bool
    requires belongs { IsSeatOf lock.now seat.old }
    ensures belongs { IsSeatOf lock.now seat.new }
    ensures share { seat.new.share ≡ seat.old.share }
    ensures mine { length seat.new.mine ≡ length seat.old.mine + one_if result }
{
    match lock.look_with(rt, alloc, seat, 0) {
        Ok(Some(count)) => {
            match lock.commit_with(rt, seat, Addition { number, count }) {
                CommitSeen::Committed { version: _ } => true,
                CommitSeen::Stale { looked: _, now: _ } => false,
            }
        }
        Ok(None) => false,
        Err(NoMemory) => false,
    }
}

/// A hundred looks and commits: how many were taken.
fn add_often<R: Wait>(
    rt: &R,
    alloc: Global,
    lock: &Versioned<Numbers>,
    mut seat: WorkSeat<Numbers>,
    number: u32,
) -> (WorkSeat<Numbers>, u64)
    requires belongs { IsSeatOf lock.now seat }
    requires none { seat.mine ≡ [] }
    ensures belongs { IsSeatOf lock.now result.0 }
    ensures share { result.0.share ≡ seat.share }
    ensures mine { length result.0.mine ≡ result.1 }
    ensures count { result.1 ≤ 100 }
{
    let mut count = 0u64;
    'turns: for _ in 0..100u64 {
        if add_once(rt, alloc, lock, &mut seat, number) {
            count += 1;
        }
    }
    (seat, count)
}

/// The list of a lock that was made over an empty one: it has as many numbers as the seats
/// committed.
fn closed(lock: Versioned<Numbers>, one: WorkSeat<Numbers>, two: WorkSeat<Numbers>) -> Numbers
    requires belongs { IsSeatOf lock one × IsSeatOf lock two }
    requires all { one.share + two.share ≡ lock.seats }
    requires empty { lock.first ≡ 0 }
    ensures { length result.items.items ≡ length one.mine + length two.mine }
{
    let seat = lock.join(one, two);
    lock.close(seat)
}

/// The list after two threads, and how many numbers each added: the first adds ones, the second
/// twos.
fn added_by_two<R: Threads + Wait + Sync>(
    rt: &R,
    alloc: Global,
    room: usize,
    looks: Looks,
) -> Result<(Numbers, u64, u64), NoMemory>
    requires { room < 2 ^ 63 }
    ensures version { IfOk result (λ r. length r.0.items.items ≡ r.1 + r.2) }
{
    let (lock, seat) = Versioned::new(alloc, Numbers::new(alloc, room, looks)?, 2)?;
    let (one, two) = lock.split(seat);
    let (a, b) = join(
        rt,
        || -> (WorkSeat<Numbers>, u64)
            requires { IsSeatOf lock one × (one.mine ≡ []) }
            ensures { IsSeatOf lock result.0 × (result.0.share ≡ one.share) ×
                (length result.0.mine ≡ result.1) × (result.1 ≤ 100) }
        { add_often(rt, alloc, &lock, one, 1) },
        || -> (WorkSeat<Numbers>, u64)
            requires { IsSeatOf lock two × (two.mine ≡ []) }
            ensures { IsSeatOf lock result.0 × (result.0.share ≡ two.share) ×
                (length result.0.mine ≡ result.1) × (result.1 ≤ 100) }
        { add_often(rt, alloc, &lock, two, 2) },
    );
    let (one, ones) = a;
    let (two, twos) = b;
    Ok((closed(lock, one, two), ones, twos))
}

/// Two threads add to a list: each number stands in it once, and there are at least so many.
fn check_additions<R: Threads + Wait + Sync + Abort>(
    rt: &R,
    alloc: Global,
    room: usize,
    looks: Looks,
    least: u64,
) -> Result<(), Fail>
    requires { room < 2 ^ 63 }
{
    let (numbers, ones, twos) = added_by_two(rt, alloc, room, looks)?;
    assert!(rt; count_of(&numbers, 1) == ones);
    assert!(rt; count_of(&numbers, 2) == twos);
    assert!(rt; least <= ones.saturating_add(twos));
    assert!(rt; numbers.items.len() <= room);
    Ok(())
}

fn count_of(numbers: &Numbers, wanted: u32) -> u64 {
    numbers.items.iter().filter(|x| **x == wanted).count() as u64
}

/// Looks pause several times as often as a seat tries before it sleeps.
#[test]
fn each_commit_of_two_threads_stands_in_the_list_once(rt: HostRuntime) -> Result<(), Fail> {
    for (room, least) in [(0usize, 0u64), (1, 1), (150, 100), (1000, 100)] {
        check_additions(&rt, rt.alloc(), room, Looks::new(20_000, false), least)?;
    }
    Ok(())
}

/// The turn is given up and waited for at many different times.
#[test]
fn many_short_turns_come_back(rt: HostRuntime) -> Result<(), Fail> {
    for round in 0..200u32 {
        check_additions(&rt, rt.alloc(), 1000, Looks::new(round * 10, false), 100)?;
    }
    Ok(())
}

/// Of two hundred looks a hundred fail, and of the others at most every second one is stale.
#[test]
fn looks_that_fail_give_the_turn_back(rt: HostRuntime) -> Result<(), Fail> {
    for pauses in [0u32, 1000, 20_000] {
        check_additions(&rt, rt.alloc(), 1000, Looks::new(pauses, true), 50)?;
    }
    Ok(())
}

#[test]
fn the_later_of_two_commits_is_stale(rt: HostRuntime) -> Result<(), Fail> {
    let alloc = rt.alloc();
    let (lock, seat) = Versioned::new(alloc, Numbers::new(alloc, 9, Looks::new(0, false))?, 2)?;
    let (mut one, mut two) = lock.split(seat);
    let first = lock.look_with(&rt, alloc, &mut one, 0)?;
    let second = lock.look_with(&rt, alloc, &mut two, 0)?;
    assert!(rt; first == second);
    let (Some(count), Some(same)) = (first, second) else {
        panic!(rt; "there is room");
    };
    let taken = lock.commit_with(&rt, &mut one, Addition { number: 5, count });
    let dropped = lock.commit_with(
        &rt,
        &mut two,
        Addition {
            number: 6,
            count: same,
        },
    );
    assert!(rt; matches!(taken, CommitSeen::Committed { version: 1 }));
    assert!(rt; matches!(dropped, CommitSeen::Stale { looked: 0, now: 1 }));
    assert_eq!(rt; (lock.seats(), one.share(), two.share()), (2, 1, 1));
    let seat = lock.join(one, two);
    let numbers = lock.close(seat);
    assert_eq!(rt; numbers.items.as_slice(), [5u32].as_slice());
    Ok(())
}
