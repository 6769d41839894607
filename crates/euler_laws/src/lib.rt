//! The graded Euler characteristic of a homology table.
#![tactic(auto)]

pub mod laws;
