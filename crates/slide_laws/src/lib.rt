//! A third Reidemeister move at any triangle of a code, before its arcs are numbered anew.
#![tactic(auto)]

pub mod laws;
pub mod worked;
