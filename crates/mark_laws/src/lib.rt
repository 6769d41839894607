//! Homology over two elements is reduced homology twice, with whatever mark.
#![tactic(auto)]

pub mod laws;
