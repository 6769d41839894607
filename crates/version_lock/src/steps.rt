//! The atomic steps on the lock's table, and what each tells the seat that takes it. No value of
//! these types is made.
ghost use Rattle.version_lock.specs.Views.{spent, kept_view, given_view, joined_view};
ghost use Rattle.version_lock.specs.Steps.{tried, measured, committed};
ghost use Rattle.version_lock.specs.Steps.{released, withdrawn, affirmed};

use crate::held::Held;
use crate::rule::View;
use atomic_table::{Join, Play, Split};
use std::marker::PhantomData;

/// The turn is tried: word 0 goes from 0 to 1, and the value comes out.
pub(crate) struct Try<B> {
    of: PhantomData<B>,
}

impl<B: Held> Play<B, View<B::Origin, B::Entry>> for Try<B> {
    ghost then = { tried B.origin B.history };
}

/// The version is read.
pub(crate) struct Measure;

impl<B: Held> Play<B, View<B::Origin, B::Entry>> for Measure {
    ghost then = { measured };
}

/// The version is raised by 1, for the entry that the value has gained.
pub(crate) struct Commit<B> {
    of: PhantomData<B>,
}

impl<B: Held> Play<B, View<B::Origin, B::Entry>> for Commit<B> {
    ghost then = { committed B.history };
}

/// The turn and the value are given back, and the history has been seen.
pub(crate) struct Release;

impl<B: Held> Play<B, View<B::Origin, B::Entry>> for Release {
    ghost then = { released };
}

/// The turn and the value are given back, and no more has been seen.
pub(crate) struct Withdraw;

impl<B: Held> Play<B, View<B::Origin, B::Entry>> for Withdraw {
    ghost then = { withdrawn };
}

/// A word is read, for what the rule says of the view.
pub(crate) struct Affirm;

impl<B: Held> Play<B, View<B::Origin, B::Entry>> for Affirm {
    ghost then = { affirmed };
}

/// One share goes to a new seat.
pub(crate) struct SplitShare;

impl<O, E> Split<View<O, E>> for SplitShare {
    ghost left = { kept_view };

    ghost right = { given_view };
}

/// A seat takes another in.
pub(crate) struct JoinShares;

impl<O, E> Join<View<O, E>> for JoinShares {
    ghost both = { joined_view };

    ghost spent = { spent };
}
