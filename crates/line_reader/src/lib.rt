//! The lines of a source, one after another, as they come.
#![tactic(auto)]

mod buffered;
mod line;
mod reading;

pub use buffered::Buffered;
pub use line::Line;
pub use reading::{LineStop, NextLine, next_line};
