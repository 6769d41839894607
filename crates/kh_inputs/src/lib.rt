//! From the bytes of an input to a diagram, or to the reply that refuses them.
#![tactic(auto)]

mod code_refusals;
mod input;
mod laws;
mod parts;

pub use input::{InputStop, read_diagram};
pub use laws::{codes_of_texts_are_small, inputs_are_cut_at_the_first_semicolon};
pub use parts::{code_part, part_behind};
