//! The Reidemeister moves keep the survivors of the deformed cube, and so homology and s: all
//! diagrams of a link share them, with the Jones polynomial.
#![tactic(auto)]

pub mod last_pages;
pub mod laws;
pub mod moves;
pub mod worked;
