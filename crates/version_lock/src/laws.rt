//! What the type of a seat keeps, and that threads may share a lock and hand on its seats.

ghost use Rattle.std.specs.Prelude.{◌<◌, ◌≤◌, ◌^◌, length};
ghost use Rattle.version_lock.specs.Places.{AreOwn};

use crate::held::Held;
use crate::versioned::Versioned;
use crate::work_seat::WorkSeat;

/// What the type of a seat keeps: it stands for at least one seat, what it has seen of the history
/// is shorter than 2^64, and the places of the entries that it committed ascend and lie in that. It
/// does nothing: a function calls it, and its proof then has these facts at hand.
pub fn seat_laws<B: Held>(seat: &WorkSeat<B>)
    ensures least { 1 ≤ seat.now.share }
    ensures few { seat.now.share < 2 ^ 32 }
    ensures short { length seat.now.seen < 2 ^ 64 }
    ensures own { AreOwn (length seat.now.seen) seat.now.mine }
{
    let _ = seat.share();
    let _looked = seat.looked;
}

/// Threads may share a lock, whatever it holds, and may hand it on: it is `Send` and `Sync`.
pub fn locks_are_shared<B: Held>() {
    are_shared::<Versioned<B>>();
}

/// A thread may hand on a seat, whatever the lock holds: it is `Send`. One thread has it at a time.
pub fn seats_are_sent<B: Held>() {
    are_sent::<WorkSeat<B>>();
}

/// Threads may share values of this type, and hand them on.
fn are_shared<T: Send + Sync>() {}

/// A thread may hand on values of this type.
fn are_sent<T: Send>() {}
