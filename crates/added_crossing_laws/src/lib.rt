//! What one crossing more does to the surfaces between pairings of open arcs.
#![tactic(auto)]

pub mod laws;
pub mod worked;
