//! Column reduction, which finds all pivots of a complex without its rows, and what it leaves.
#![tactic(auto)]

mod entries;
mod left_column;
mod next_column;
mod reduced_column;
mod reduced_degree;
mod reducing;
pub mod reduction_laws;
mod stored_column;
mod under_way;

pub use reducing::{Reduced, reduce};
pub use under_way::{ColumnReduction, FoundColumn};
