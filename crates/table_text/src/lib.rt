//! The texts of homology tables in both versions, printed and read, each with one reading.
#![tactic(auto)]

pub mod laws;
mod limits;
mod lines;
mod printer;
mod reader;
mod stop;
mod version;
mod words;

pub use homology_tables::{Row, Table};
pub use limits::{FIRST_CROSSINGS, FIRST_EXPONENT, TABLE_BYTES};
pub use printer::print_table;
pub use reader::read_table;
pub use stop::TableStop;
