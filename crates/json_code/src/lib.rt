//! Reads the code of a diagram from a JSON text: an array of crossings, each an array of four
//! numbers.
#![tactic(auto)]

mod crossing;
mod laws;
mod reader;
mod stop;

pub use laws::{as_u64_gives_whole_numbers, each_text_has_one_reading, worked_texts};
pub use reader::read_json;
pub use stop::JsonStop;
