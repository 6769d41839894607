//! The mirror, the reversal and the disjoint union of diagrams, and what the first two do to
//! homology.
#![tactic(auto)]

mod fault;
pub mod laws;
mod slots;
mod turns;
mod unions;

pub use fault::UnionFault;
pub use turns::{mirror, reverse};
pub use unions::union;
