//! The order in which the crossings of a code are listed: acceptance does not know it, and the cube
//! in each order has the same survivors and dimensions.
#![tactic(auto)]

pub mod laws;
pub mod worked;
