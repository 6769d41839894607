//! Reads and prints planar diagram texts: a text spells a list of items, and these are a code.
#![tactic(auto)]

mod item;
mod laws;
mod machine;
mod printer;
mod reader;
mod stop;

pub use item::Item;
pub use laws::{each_text_has_one_reading, printed_codes_are_read_back, worked_texts};
pub use printer::print_pd;
pub use reader::read_pd;
pub use stop::PdStop;
