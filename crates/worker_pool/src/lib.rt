//! The blocks of a diagram, cancelled to zero by one worker or by many that take turns at them, in
//! threads under locks.
#![tactic(auto)]

mod all_blocks;
mod building;
mod cancelling;
mod crew;
mod done_slots;
mod finished;
mod gate;
mod one_seat;
mod outcome;
mod rows;
mod sharing;
mod sizes;
mod slots;
mod turns;

pub use cancelling::{cancel_all, cancel_alone, cancel_small, cancel_small_alone};
pub use gate::{Free, Gate};
pub use one_seat::cancel_by_one_seat;
pub use outcome::{Cancelled, PoolStop};
pub use turns::work;
