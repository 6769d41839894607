//! Products of complexes, whose cells are pairs, and their dimensions.
#![tactic(auto)]

pub mod laws;
