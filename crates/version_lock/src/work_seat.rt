//! The seats of a lock.
ghost use Rattle.std.specs.Prelude.{◌≡◌, ◌≤◌};

use crate::held::Held;
use crate::rule::View;
use atomic_table::Seat;
use std::marker::Model;

/// A share of the right to take turns at a lock. It has seen a prefix of the history, and knows the
/// places, from 0, of the entries that were committed with it. `split` and `join` of the lock make
/// two seats of one, and one of two.
#[derive(Drop)]
pub struct WorkSeat<B: Held> {
    pub(crate) seat: Seat<B, View<B::Origin, B::Entry>>,
    pub(crate) looked: u64,
    pub(crate) share: u32,
}

impl<B: Held> Model for WorkSeat<B> {
    ghost use Rattle.std.specs.Prelude.{◌≡◌, ◌≤◌, length, [], None};
    ghost use Rattle.version_lock.specs.Places.{AreOwn};
    ghost use Rattle.version_lock.specs.Calls.{SeatFacts, seat_facts};

    ghost Value = { SeatFacts B.Origin B.Entry };

    ghost view = { λ s. seat_facts s.seat.table_id s.seat.me.0 };

    ghost invariant = { λ s. (s.seat.me.1 ≡ []) × (s.seat.me.0.held ≡ None) ×
        (s.looked ≡ length s.seat.me.0.seen) × (s.seat.me.0.share ≡ s.share) × (1 ≤ s.share) ×
        AreOwn (length s.seat.me.0.seen) s.seat.me.0.mine };
}

impl<B: Held> WorkSeat<B> {
    /// For how many seats this one stands, at least 1.
    pub fn share(&self) -> u32
        ensures share { result ≡ self.now.share }
        ensures least { 1 ≤ result }
    {
        self.share
    }
}
