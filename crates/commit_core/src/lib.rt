//! Workers that look at the blocks of a cube and commit to them, as one list of events with one
//! list of answers.
#![tactic(auto)]

mod answer;
mod blocks;
mod building;
mod event;
mod held_look;
pub mod laws;
mod machine;
mod run;

pub use answer::Answer;
pub use event::{Event, are_of_workers};
pub use machine::Core;
pub use run::{Run, run_events};
