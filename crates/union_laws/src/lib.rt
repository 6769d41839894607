//! The homology of disjoint unions, of codes with loops, and of codes in several pieces.
#![tactic(auto)]

pub mod laws;
