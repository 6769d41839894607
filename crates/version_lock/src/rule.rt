//! What each seat at the lock's table knows, and the rule that each atomic step keeps.
//! Word 0 is the turn, word 1 the version, and the one slot has the value.
ghost use Rattle.std.specs.Prelude.{length};

use crate::held::Held;
use atomic_table::TableRule;
use std::alloc::Global;
use std::collections::LinkedList;
use std::marker::PhantomData;
use std::snapshot::Snapshot;

/// What a seat knows. No value of it is made.
pub struct View<O, E> {
    /// The value's origin. It is `None` once a join has spent the view.
    pub origin: Option<O>,
    /// A prefix of the history.
    pub seen: LinkedList<E, Global>,
    /// The places, from 0, of the entries that this seat committed, ascending.
    pub mine: LinkedList<u64, Global>,
    /// For how many seats the seat stands.
    pub share: u64,
    /// The whole history, while this seat has the turn.
    pub held: Option<LinkedList<E, Global>>,
    /// Further prefixes of the history: those that the seats of the last join had seen.
    pub prefixes: LinkedList<LinkedList<E, Global>, Global>,
}

/// What is known of a lock from its making: the value as it was, and the number of seats.
#[derive(Drop)]
pub struct Opening<B> {
    pub value: Snapshot<B>,
    pub seats: u32,
}

/// What holds of a lock between any two steps. No value of it is made.
pub struct TurnRule<B> {
    of: PhantomData<B>,
}

impl<B: Held> TableRule<B, View<B::Origin, B::Entry>, Opening<B>> for TurnRule<B> {
    ghost use Rattle.version_lock.specs.Views.{opening_view};
    ghost use Rattle.version_lock.specs.Rule.{LockRule};

    ghost holds = { λ key. LockRule B.origin B.history (B.origin key.value.value)
        (length (B.history key.value.value)) key.seats };

    ghost first = { λ key. opening_view (B.origin key.value.value)
        (B.history key.value.value) key.seats };
}
