//! Diagrams drawn as slices of strands from the top of the page to the bottom, the text of a
//! drawing, and what its slices join.
#![tactic(auto)]

mod drawing;
mod end;
mod fault;
mod joining;
mod joins;
pub mod laws;
mod limits;
mod open_ends;
mod page;
mod printer;
mod slice;
mod step;

pub use drawing::slices;
pub use fault::SliceFault;
pub use joining::joins_of;
pub use joins::{Joins, Pair};
pub use limits::{CAP_STRANDS, DRAWN_STRANDS, JOINED_LOOPS};
pub use printer::print_slices;
pub use slice::Slice;
