//! Complexes whose places are the elements of a list, and filtered ones: what keeps their dimensions
//! and their survivors.
#![tactic(auto)]

pub mod laws;
