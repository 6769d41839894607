//! The cube's squares: what two crossings do to circles, labels and signs in either order, and that
//! the differential squares to zero, so that the blocks of accepted codes are complexes.
#![tactic(auto)]

pub mod laws;
