//! Diagrams cut in two parts: how the circles of the whole come from those of the parts, and so
//! what renumbering and a third Reidemeister move keep of the state sum.
#![tactic(auto)]

pub mod laws;
