//! Histories of cancellations: what they keep, the ranks that they count down, and how they end.
#![tactic(auto)]

pub mod laws;
