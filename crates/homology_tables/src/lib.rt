//! Homology tables as values, and the rows that a complex gives.
#![tactic(auto)]

pub mod laws;
mod row;
mod rows;
mod table;

pub use laws::table_laws;
pub use row::{Row, push_row};
pub use rows::push_rows;
pub use table::Table;
