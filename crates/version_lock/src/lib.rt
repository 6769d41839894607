//! A lock that keeps one history: what threads commit under it stands in that history, each entry
//! once.
#![tactic(auto)]

mod commit_seen;
mod held;
pub mod laws;
mod rule;
mod steps;
mod turns;
mod versioned;
mod work_seat;

pub use commit_seen::CommitSeen;
pub use held::Held;
pub use rule::{Opening, TurnRule, View};
pub use versioned::Versioned;
pub use work_seat::WorkSeat;
