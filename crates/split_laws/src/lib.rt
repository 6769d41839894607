//! Complexes that split in two parts, and what this says of their dimensions.
#![tactic(auto)]

pub mod laws;
