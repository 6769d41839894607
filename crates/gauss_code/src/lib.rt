//! Reads and prints signed Gauss codes: a text lists the labels of its components and the signs of
//! its crossings, and these are a code.
#![tactic(auto)]

mod diagram_labels;
mod faults;
mod labels;
pub mod laws;
mod listing;
mod machine;
mod passes;
mod printer;
mod reader;
mod stop;

pub use printer::print_gauss;
pub use reader::read_gauss;
pub use stop::GaussStop;
