//! Codes made of components' labels and signs: they are directed, with these signs. Laws, and a
//! pass as a value.
#![tactic(auto)]

pub mod laws;
mod pass;

pub use pass::Pass;
