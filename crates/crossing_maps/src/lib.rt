//! Adding a crossing: the pairing after it, the circles that it closes, and the terms of the new
//! maps.
#![tactic(auto)]

pub mod added;
pub mod behind;
pub mod between;
pub mod bridges;
pub mod closed;
pub mod genus;
pub mod laws;
pub mod maps;
pub mod names;
pub mod seams;
pub mod site;
pub mod splitting;
pub mod terms;
#[cfg(test)]
mod tests;
