//! The lock and its calls. A turn is taken in each call that reads or changes the value, so no seat
//! holds the turn between calls.
ghost use Rattle.std.specs.Prelude.{◌≡◌, ◌⊎◌, ◌-◌, ℕ, ◌+◌, ◌<◌, ◌≤◌, ◌^◌, []};
ghost use Rattle.std.specs.Prelude.{◌∷◌, ◌++◌, length, Some, None, IfOk, IfErr, IfSome, IfNone};
ghost use mathlib.Core.List.{IsPrefix};
ghost use Rattle.version_lock.specs.Places.{copies, merged_places, IsAscending};
ghost use Rattle.std.specs.List.{range_with_len};
ghost use Rattle.version_lock.specs.Calls.{IsSeatOf, IsLongerOf, CommitsTo};

use crate::commit_seen::CommitSeen;
use crate::held::Held;
use crate::rule::{Opening, TurnRule, View};
use crate::turns::{commit, join_shares, look, split_share};
use crate::work_seat::WorkSeat;
use atomic_table::{Refused, Table};
use kh_types::NoMemory;
use std::alloc::Global;
use std::marker::Model;
use std::snapshot::Snapshot;
use std::sync::Wait;
use std::sync::atomic::AtomicU64;

/// A value that threads take turns at. It keeps its origin, the length of the history that it was
/// made with (`first`), and its number of seats.
#[derive(Drop)]
pub struct Versioned<B: Held> {
    table: Table<B, View<B::Origin, B::Entry>, Opening<B>, TurnRule<B>, Global>,
    seats: u32,
    /// How many seats sleep until the turn is given up, or are about to.
    waiting: AtomicU64,
}

impl<B: Held> Model for Versioned<B> {
    ghost use Rattle.std.specs.Prelude.{◌≡◌};
    ghost use Rattle.version_lock.specs.Calls.{LockFacts, lock_facts};

    ghost Value = { LockFacts B.Origin };

    ghost view = { λ l. lock_facts l.table.shared.table_id
        (B.origin l.table.shared.key.value.value)
        (B.history l.table.shared.key.value.value) l.seats };

    ghost invariant = { λ l. (l.table.shared.table_id.words ≡ 2) ×
        (l.table.shared.table_id.slots ≡ 1) × (l.table.shared.key.seats ≡ l.seats) };
}

impl<B: Held> Versioned<B> {
    /// A lock over the value, and its first seat, which has seen the whole history and has all
    /// shares. Where memory is out the value is gone.
    #[tactic(auto, using(crate::proofs::Own::own_none))]
    pub fn new(alloc: Global, value: B, seats: u32) -> Result<(Versioned<B>, WorkSeat<B>), NoMemory>
        requires { 1 ≤ seats }
        ensures origin { IfOk result (λ made. made.0.origin ≡ B.origin value) }
        ensures first { IfOk result (λ made. made.0.first ≡ length (B.history value)) }
        ensures seats { IfOk result (λ made. made.0.seats ≡ seats) }
        ensures belongs { IfOk result (λ made. IsSeatOf made.0 made.1) }
        ensures seen { IfOk result (λ made. made.1.seen ≡ B.history value) }
        ensures mine { IfOk result (λ made. made.1.mine ≡ []) }
        ensures share { IfOk result (λ made. made.1.share ≡ seats) }
    {
        let about = Opening {
            value: Snapshot::of(&value),
            seats,
        };
        let looked = value.version();
        let mut slots = Vec::with_capacity(alloc, 1)?;
        slots.push_reserved(value);
        match Table::new(alloc, &[0, looked], slots, &about) {
            Ok((table, seat)) => Ok((
                Versioned {
                    table,
                    seats,
                    waiting: AtomicU64::new(0),
                },
                WorkSeat {
                    seat,
                    looked,
                    share: seats,
                },
            )),
            Err(Refused { slots: _ }) => Err(NoMemory),
        }
    }

    /// A look at the value, which fits what the seat has seen since; `None` exactly where the value
    /// is done. It waits for its turn. Where memory is out the seat is as before.
    #[tactic(auto, using(crate::proofs::Own::own_after_look, crate::proofs::Own::own_same))]
    pub fn look_with<R: Wait>(
        &self,
        rt: &R,
        alloc: Global,
        seat: &mut WorkSeat<B>,
        hint: u32,
    ) -> Result<Option<B::Look>, NoMemory>
        requires belongs { IsSeatOf self.now seat.old }
        ensures belongs { IsSeatOf self.now seat.new }
        ensures share { seat.new.share ≡ seat.old.share }
        ensures mine { seat.new.mine ≡ seat.old.mine }
        ensures seen { IsPrefix seat.old.seen seat.new.seen }
        ensures none { IfOk result (λ found. IfNone found (B.done self.now.origin seat.new.seen)) }
        ensures open { IfOk result (λ found. IfSome found (λ _.
            ¬ B.done self.now.origin seat.new.seen)) }
        ensures look { IfOk result (λ found. IfSome found (λ look.
            B.look_fits look self.now.origin seat.new.seen)) }
        ensures memory { IfErr result (λ _. seat.new ≡ seat.old) }
    {
        let (looked, found) = look(
            rt,
            alloc,
            &self.table.shared,
            &self.waiting,
            &mut seat.seat,
            hint,
        )?;
        seat.looked = looked;
        Ok(found)
    }

    /// Has the value take the patch, unless others have committed since the seat looked; then the
    /// patch is dropped, and the seat has seen what they committed. It waits for its turn, and
    /// takes no memory.
    #[tactic(auto, using(crate::proofs::Own::own_after_commit))]
    pub fn commit_with<R: Wait>(
        &self,
        rt: &R,
        seat: &mut WorkSeat<B>,
        patch: B::Patch,
    ) -> CommitSeen
        requires belongs { IsSeatOf self.now seat.old }
        requires fits { B.patch_fits patch self.now.origin seat.old.seen }
        ensures belongs { IsSeatOf self.now seat.new }
        ensures share { seat.new.share ≡ seat.old.share }
        ensures ascending { IsAscending seat.new.mine }
        ensures commit { CommitsTo (B.entry patch) seat.old result seat.new }
    {
        let seen = commit(
            rt,
            &self.table.shared,
            &self.waiting,
            &mut seat.seat,
            seat.looked,
            patch,
        );
        seat.looked = match &seen {
            CommitSeen::Committed { version } => *version,
            CommitSeen::Stale { looked: _, now } => *now,
        };
        seen
    }

    /// The number of seats that `new` was given.
    pub fn seats(&self) -> u32
        ensures { result ≡ self.now.seats }
    {
        self.seats
    }

    /// Two seats of one that stands for at least two: the second stands for one seat, has seen as
    /// much, and has committed nothing.
    #[tactic(auto, using(crate::proofs::Own::own_none, crate::proofs::Own::own_same))]
    pub fn split(&self, seat: WorkSeat<B>) -> (WorkSeat<B>, WorkSeat<B>)
        requires belongs { IsSeatOf self.now seat }
        requires share { 2 ≤ seat.share }
        ensures belongs { IsSeatOf self.now result.0 × IsSeatOf self.now result.1 }
        ensures seen { (result.0.seen ≡ seat.seen) × (result.1.seen ≡ seat.seen) }
        ensures mine { (result.0.mine ≡ seat.mine) × (result.1.mine ≡ []) }
        ensures share { (result.0.share ≡ seat.share - 1) × (result.1.share ≡ 1) }
    {
        let WorkSeat {
            mut seat,
            looked,
            share,
        } = seat;
        let other = split_share(&self.table.shared, &mut seat);
        (
            WorkSeat {
                seat,
                looked,
                share: share - 1,
            },
            WorkSeat {
                seat: other,
                looked,
                share: 1,
            },
        )
    }

    /// One seat of two. Of what they have seen, one is a prefix of the other and the longer is
    /// kept; no entry is of both.
    #[tactic(auto, using(crate::proofs::Own::own_after_join))]
    pub fn join(&self, seat: WorkSeat<B>, other: WorkSeat<B>) -> WorkSeat<B>
        requires belongs { IsSeatOf self.now seat × IsSeatOf self.now other }
        ensures belongs { IsSeatOf self.now result }
        ensures seen { IsLongerOf seat.seen other.seen result.seen }
        ensures mine { result.mine ≡ merged_places seat.mine other.mine }
        ensures ascending { IsAscending result.mine }
        ensures apart { (place : ℕ) → copies place seat.mine + copies place other.mine ≤ 1 }
        ensures share { result.share ≡ seat.share + other.share }
    {
        let WorkSeat {
            mut seat,
            looked,
            share,
        } = seat;
        let WorkSeat {
            seat: taken,
            looked: looked_there,
            share: share_there,
        } = other;
        join_shares(&self.table.shared, &mut seat, taken);
        WorkSeat {
            seat,
            looked: looked.max(looked_there),
            share: share + share_there,
        }
    }

    /// Takes the value out, where the seat has all shares again. Its history is what the seat has
    /// seen, and each entry since the lock was made is of this seat.
    pub fn close(self, seat: WorkSeat<B>) -> B
        requires belongs { IsSeatOf self seat }
        requires all { seat.share ≡ self.seats }
        ensures origin { B.origin result ≡ self.origin }
        ensures history { B.history result ≡ seat.seen }
        ensures first { self.first ≤ length seat.seen }
        ensures mine { seat.mine ≡ range_with_len self.first (length seat.seen - self.first) }
    {
        let Versioned {
            table,
            seats: _,
            waiting: _,
        } = self;
        let WorkSeat {
            seat,
            looked: _,
            share: _,
        } = seat;
        let mut closed = table.close_with(seat);
        let value = closed.take(0);
        closed.free();
        value
    }
}
