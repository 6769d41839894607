//! Maps between pairings in memory: sums of dotted discs, kept reduced, their compositions, and
//! what a cancellation makes of an entry.
#![tactic(auto)]

mod cancelling;
mod choices;
mod composing;
mod kept;
mod known;
pub mod laws;
pub mod names;
mod pairing;
pub mod seam;
mod sum;
#[cfg(test)]
mod tests;
mod way;

pub use cancelling::{cancel, cancel_multiple};
pub use composing::{add_all, compose};
pub use kept::Seams;
pub use known::KnownSeam;
pub use pairing::{ALONE, POINTS, Pairing, join_pairs};
pub use sum::{INLINE_TERMS, Terms, add_scaled, add_term, is_zero, number_of};
pub use way::{Way, is_way};
