//! Two permutations have a genus (Euler's formula), and so have the surfaces of a diagram cut after
//! some of its crossings.
#![tactic(auto)]

pub mod laws;
