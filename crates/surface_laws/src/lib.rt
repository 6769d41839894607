//! Surfaces glued of discs along strips, and one number for each: how it is kept by cuts along
//! circles, by other names of places, and under disjoint unions.
#![tactic(auto)]

pub mod laws;
pub mod worked;
